// Arrays: array.rs. The items of an Array go to the pool, its record to the program.
ghost use Rattle.std.specs.Prelude.{◌≡◌, true, cond, List, ◌+◌, ◌*◌, ◌≤◌, ◌<◌, ltb, length, drop, get_or};
ghost use Rattle.lent.specs.Bytes.{splice};
ghost use Rattle.sifv.specs.inner.Seen.{single_seen};
ghost use Rattle.opc.specs.Record.{item_bytes, fields};
ghost use Rattle.opc.specs.inner.Fetch.{fields_told};
ghost use Rattle.ast.specs.Tree.{Lit};
ghost use Rattle.ast.specs.Flat.{flat_lits, body_bytes};
ghost use Rattle.emit.specs.inner.Made.{Reads, Front};
ghost use Rattle.expr.specs.inner.Parts.{rights};
ghost use Rattle.expr.specs.inner.Arrays.{items_bytes, Lits};

// Entry k of the pool becomes v, where `keep`.
fn keep_item(keep: bool, k: usize, v: sifv::SifVal, out: &mut [u8])
    requires { keep ≡ true → 16384 + 16 * k + 16 ≤ length out.old }
    ensures { out.new ≡ cond keep (splice out.old (16384 + 16 * k) (item_bytes (single_seen v))) out.old }
{
    if keep {
        opc::put_item(out, k, v);
        return;
    }
}

// The n items behind an Array's node, to the pool from entry k on where `keep`: where their bodies end.
fn arrayitems(
    n: usize,
    contents: &[u8],
    bodies: &[u8],
    keep: bool,
    k: usize,
    out: &mut [u8],
) -> usize
    requires n_bound { (n ≤ 255) × (k ≤ 1024) × (keep ≡ true → 16384 + 16 * (k + n) ≤ length out.old) }
    requires lits { (ls : List Lit) × Lits n ls contents.now bodies.now }
    ensures { (ls : List Lit) → Lits n ls contents.now bodies.now → (result ≡ 1 + length (body_bytes (flat_lits ls))) × (out.new ≡ cond keep (splice out.old (16384 + 16 * k) (items_bytes ls)) out.old) }
{
    let mut at = 1;
    for i in 0..n {
        let kind = contents[ast::NODE_SIZE + ast::NODE_SIZE * i];
        let v = emit::literal_value(kind, bodies, at);
        keep_item(keep, k + i, v, out);
        at += emit::literal_size(kind);
    }
    at
}

fn array_fields(lbl: u64, name: u8, n: u8, items: usize) -> opc::Fields
    ensures { fields_told result ≡ fields lbl 9 5 name 0 0 n items }
{
    opc::Fields {
        code: opc::OP_STC,
        kind: opc::ARR,
        lbl,
        a: name,
        b: 0,
        c: 0,
        len: n,
        word: items as u64,
    }
}

// Under its own name, whatever x is.
pub fn arraydecl(
    x: u8,
    contents: &[u8],
    bodies: &[u8],
    keep: bool,
    lbl: u64,
    low: emit::Low,
    out: &mut [u8],
) -> emit::Done
    requires reads { Reads (rights x) contents.now bodies.now low out.old }
    requires contents_value { get_or contents.now 0 0 ≡ 12 }
    ensures { Front (rights x) contents.now bodies.now keep lbl low out.old result out.new }
{
    let n = contents[1];
    let m = n as usize;
    let k = low.items as usize;
    let f = array_fields(lbl, bodies[0], n, k);
    let q = emit::push_items(keep, low, f, m, out);
    let end = arrayitems(m, contents, bodies, low.recs < q.recs, k, out);
    emit::start(ast::NODE_SIZE + ast::NODE_SIZE * m, end, lbl, q)
}
