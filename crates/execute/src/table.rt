// Tables: vm.rs, Tbli and Tblg.
ghost use Rattle.std.specs.Prelude.{◌≡◌, true, ◌≤◌, ◌<◌};
ghost use Rattle.sifv.specs.inner.Seen.{kind_in, seen};
ghost use Rattle.sifv.specs.Slot.{value_ok};
ghost use Rattle.vm.specs.Operation as Operation;
ghost use Rattle.execute.specs.inner.View.{regs_of, names_of, Named, Neat};
ghost use Rattle.execute.specs.inner.TableView.{Looked};

use crate::RuntimeErr;

// The value of a key into register dest; what is no table changes nothing.
pub fn tblg(state: &mut [u8], tabname: usize, key: usize, dest: usize) -> Result<(), RuntimeErr>
    requires { Neat state.old × (tabname < 64) × (dest < 96) × (value_ok (names_of state.old tabname) ≡ true) }
    ensures { Looked state.old state.new key dest (Operation.read (names_of state.old) tabname) result }
{
    let at = crate::slot(tabname);
    let k = sifv::kind_at(state, at);
    if k == 0 {
        return Err(RuntimeErr::InvalidName(tabname));
    }
    if k != 6 {
        return Ok(());
    }
    let n = sifv::len_at(state, at) as usize;
    let i = sifv::table::key_place(state, at, n, key as u64);
    if !sifv::table::has_key(state, at, n, i, key as u64) {
        return Err(RuntimeErr::KeyAbsent);
    }
    let v = sifv::item(state, at, i);
    sifv::put(state, crate::reg(dest), v);
    Ok(())
}

// The single value of register src under a key of a table.
fn insert(state: &mut [u8], tabname: usize, key: usize, src: usize) -> Result<(), RuntimeErr>
    requires { Neat state.old × (tabname < 64) × (key < 64) × (src < 96) × (value_ok (names_of state.old tabname) ≡ true) × (kind_in (seen (names_of state.old tabname)) ≡ 6) × (0 < kind_in (seen (regs_of state.old src))) × (kind_in (seen (regs_of state.old src)) ≤ 4) }
    ensures { Named state.old state.new (Operation.tabled (names_of state.old) tabname key (regs_of state.old src)) result }
{
    let at = crate::slot(tabname);
    let from = crate::reg(src);
    let n = sifv::len_at(state, at) as usize;
    let i = sifv::table::key_place(state, at, n, key as u64);
    if sifv::table::has_key(state, at, n, i, key as u64) {
        sifv::store_item(state, at, i, from);
        return Ok(());
    }
    if lent::TABLE_ITEMS <= n {
        return Err(RuntimeErr::TableFull);
    }
    sifv::table::insert_new(state, at, n, i, key as u64, from);
    Ok(())
}

pub fn tbli(state: &mut [u8], tabname: usize, key: usize, src: usize) -> Result<(), RuntimeErr>
    requires { Neat state.old × (tabname < 64) × (key < 64) × (src < 96) × (value_ok (names_of state.old tabname) ≡ true) }
    ensures { Named state.old state.new (Operation.tabled (names_of state.old) tabname key (regs_of state.old src)) result }
{
    let k = sifv::kind_at(state, crate::slot(tabname));
    if k == 0 {
        return Err(RuntimeErr::InvalidName(tabname));
    }
    if k != 6 {
        return Ok(());
    }
    let j = sifv::kind_at(state, crate::reg(src));
    if j == 0 {
        return Err(RuntimeErr::EmptyRegister);
    }
    if 5 <= j {
        return Err(RuntimeErr::Nested);
    }
    insert(state, tabname, key, src)
}
