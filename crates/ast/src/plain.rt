// Plain scripts (document 01, "The tree file"): one loop over the entries, each kind tested with the kind that it stands under.
ghost use Rattle.std.specs.Prelude.{◌≡◌, ◌+◌, ◌≤◌, ◌<◌, length};
ghost use Rattle.ast.specs.File.{read_tree};
ghost use Rattle.ast.specs.inner.Under as Rule;

// "no 6, 9 or 15"
fn absent(kind: u64) -> bool
    ensures { result ≡ Rule.absent kind }
{
    matches!(kind, 6 | 9 | 15)
}

// "under 8, 12, 16, 17, 18"
fn holds_truth(under: u64) -> bool
    ensures { result ≡ Rule.holds_truth under }
{
    matches!(under, 8 | 12 | 16 | 17 | 18)
}

fn allowed(under: u64, kind: u64) -> bool
    ensures { result ≡ Rule.allowed under kind }
{
    let own = (kind == 14) | (kind == 16);
    let truth = (kind == 22) | (kind == 23);
    !absent(kind) & ((!own | (under == 7)) & (!truth | holds_truth(under)))
}

// One more than the subtrees left before the second child of a 14 (ArrayMut), or 0. The parent of a node that does not follow it
// directly is further up; every such parent but a 14 allows what a 17 (BinaryExpr) allows, so the one place to find is a 14's second child.
fn waits(left: u64, kind: u64, count: u64) -> u64
    requires { (left ≤ 1048576) × (count < 256) }
    ensures { (result ≡ Rule.waits left kind count) × (result ≤ left + 257) }
{
    if kind == 14 {
        return 2;
    }
    if left <= 1 {
        return 0;
    }
    left + count - 1
}

// What the next node stands under.
fn under(left: u64, kind: u64) -> u64
    ensures { result ≡ Rule.under left kind }
{
    if kind < 19 {
        return kind;
    }
    if left == 1 {
        return 14;
    }
    17
}

fn scan(entries: &[u8]) -> bool
    requires { length entries.now ≤ 2048 }
    ensures { result ≡ Rule.scan 0 0 entries.now }
{
    let mut ok = true;
    let mut above: u64 = 0;
    let mut left: u64 = 0;
    for i in 0..entries.len() / crate::NODE_SIZE {
        let kind = lent::wide(entries[2 * i]);
        let count = lent::wide(entries[2 * i + 1]);
        ok = ok & allowed(above, kind);
        left = waits(left, kind, count);
        above = under(left, kind);
    }
    ok
}

// Whether the file holds a plain script; a refused one does not.
pub fn plain(file: &[u8]) -> bool
    ensures { result ≡ Rule.plain_of (read_tree file.now) }
{
    if crate::read(file).is_err() {
        return false;
    }
    let first = crate::FILE_LENGTHS + crate::contents::text_count(file) as usize;
    let size = first + crate::NODE_SIZE * (crate::contents::node_count(file) as usize);
    scan(&file[first..size])
}
