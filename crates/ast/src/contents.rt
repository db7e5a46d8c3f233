// The contents: node count, text count, a length per text, kind and child count per node.
ghost use Rattle.std.specs.Prelude.{◌≡◌, ◌≤◌, ◌<◌, leb, length};
ghost use Rattle.ast.specs.File.{node_count, text_count, counts_ok, between, firsts};
ghost use Rattle.lent.specs.Lists.{all};

const TEXTS: u64 = lent::TEXTS as u64;

pub fn node_count(file: &[u8]) -> u64
    requires { 3 ≤ length file.now }
    ensures { (result ≡ node_count file.now) × (result < 65536) }
{
    lent::get_u16(file, 0)
}

pub fn text_count(file: &[u8]) -> u64
    requires { 3 ≤ length file.now }
    ensures { (result ≡ text_count file.now) × (result < 256) }
{
    lent::wide(file[crate::FILE_TEXT_COUNT])
}

pub fn within(least: u64, most: u64, n: u64) -> bool
    ensures { result ≡ between least most n }
{
    (least <= n) & (n <= most)
}

// 2: node count outside 1 to 1,024 or text count outside 1 to 64.
pub fn counts_ok(file: &[u8]) -> bool
    requires { 3 ≤ length file.now }
    ensures { result ≡ counts_ok file.now }
{
    within(1, crate::NODES, node_count(file)) & within(1, TEXTS, text_count(file))
}

// 4: an unknown kind.
pub fn kinds_ok(entries: &[u8]) -> bool
    requires { length entries.now ≤ 2048 }
    ensures { result ≡ all (between 1 23) (firsts entries.now) }
{
    let mut ok = true;
    for i in (0..entries.len()).step_by(crate::NODE_SIZE) {
        ok = ok & within(1, 23, lent::wide(entries[i]));
    }
    ok
}

// 3: a text over 40 bytes.
pub fn lengths_ok(lengths: &[u8]) -> bool
    ensures { result ≡ all (λ n. leb n 40) lengths.now }
{
    let mut ok = true;
    for &n in lengths {
        ok = ok & (n <= crate::TEXT_BYTES);
    }
    ok
}
