// Passing a subtree: the nodes of an expression, from the first to the last.
ghost use Rattle.std.specs.Prelude.{◌≡◌, length};
ghost use Rattle.ast.specs.Tree.{Expr};
ghost use Rattle.ast.specs.Flat.{flat_expr, entry_bytes, body_bytes};
ghost use Rattle.emit.specs.inner.Made.{Spells};
ghost use Rattle.expr.specs.inner.Awaits.{body_length};

// The bytes of the entries and of the bodies of a subtree.
#[derive(Clone, Copy)]
pub struct Extent {
    pub entries: usize,
    pub bodies: usize,
}

// The body of a node of an expression, by its kind.
fn body_size(kind: u8) -> usize
    ensures { result ≡ body_length kind }
{
    if kind == ast::KIND_NUM {
        return sifv::NUMBER_SIZE;
    }
    if kind == ast::KIND_TABLE {
        return 0;
    }
    if ast::KIND_NAME < kind {
        return 0;
    }
    1
}

// The expression at the front: nodes are passed until none is awaited.
pub fn skip(entries: &[u8], bodies: &[u8]) -> Extent
    requires { (e : Expr) × Spells (flat_expr e) entries.now bodies.now }
    ensures { (e : Expr) → Spells (flat_expr e) entries.now bodies.now → (result.entries ≡ length (entry_bytes (flat_expr e))) × (result.bodies ≡ length (body_bytes (flat_expr e))) }
{
    let mut u = 0;
    let mut v = 0;
    let mut more = 1;
    while 0 < more {
        v += body_size(entries[u]);
        more = more + entries[u + 1] as usize - 1;
        u += ast::NODE_SIZE;
    }
    Extent {
        entries: u,
        bodies: v,
    }
}
