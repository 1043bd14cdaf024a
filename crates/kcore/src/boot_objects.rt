//! The objects at boot, each with the number of its references.
ghost use Rattle.std.specs.Prelude.{◌≡◌, ℕ, ◌+◌, ◌<◌, ◌≤◌, ◌++◌, ◌∷◌, [], Some, false, length, IfOk, slice_index, slice_set};
ghost use Rattle.sym_base.specs.declared.limits.TheConstants.Limits.{OBJECTS};
ghost use Rattle.sym_base.specs.declared.number.ObjNo.{ObjNo};
ghost use Rattle.ref_words.specs.Words.{NoneCreated};
ghost use Rattle.state_rows.specs.ObjectRows.{is_session, is_taken, next_number};
ghost use Rattle.state_rows.specs.declared.thread.ThreadRow.{ThreadRow};
ghost use Rattle.table_moves.specs.Notes.{no_notes};
ghost use Rattle.machine.specs.References.{same};
ghost use Rattle.kcore.specs.BootTable.{AreLinked, AreNew, FirstStand, born_count, born_names};

use kernel_tables::ObjectTable;
use machine::Born;
use ref_words::RefWords;
use state_rows::ObjectRow;
use std::alloc::Global;
use sym_base::{NoMemory, ObjNo, ThreadNo};

/// A reference to an object is counted.
#[tactic(auto, using(crate::proofs::BootCounts::counted_one))]
fn count_one(counts: &mut Vec<u32>, object: ObjNo)
    requires inside { object.0 < length counts.old.items }
    requires small { slice_index counts.old.items object.0 < 131072 }
    ensures long { length counts.new.items ≡ length counts.old.items }
    ensures counts { (o : ObjNo) → slice_index counts.new.items o.0 ≡ slice_index counts.old.items o.0 + same object o }
{
    counts[object.0 as usize] += 1;
}

/// The references are counted that there are by a thread: the kernel's to it, and its own to its process.
#[tactic(auto, using(move_laws::proofs::References::Same::same_le))]
fn count_thread(counts: &mut Vec<u32>, thread: ThreadNo, process: ObjNo)
    requires inside { thread.0 < length counts.old.items }
    requires process { process.0 < length counts.old.items }
    requires small { (k : ℕ) → slice_index counts.old.items k < 131071 }
    ensures long { length counts.new.items ≡ length counts.old.items }
    ensures counts { (o : ObjNo) → slice_index counts.new.items o.0 ≡ slice_index counts.old.items o.0 + (same thread o + same process o) }
{
    count_one(counts, thread);
    count_one(counts, process);
}

/// The references are counted that there are since an object of this number stands: none where it is a process.
fn count_born(counts: &mut Vec<u32>, number: ObjNo, born: &Born)
    requires inside { number.0 < length counts.old.items }
    requires linked { (row : ThreadRow) → born.now.thread ≡ Some row → row.process.0 < length counts.old.items }
    requires small { (k : ℕ) → slice_index counts.old.items k < 131071 }
    ensures long { length counts.new.items ≡ length counts.old.items }
    ensures counts { (o : ObjNo) → slice_index counts.new.items o.0 ≡ slice_index counts.old.items o.0 + born_names number born.now.thread o }
{
    match &born.thread {
        Some(row) => count_thread(counts, number, row.process),
        None => {}
    }
}

/// The number of references to each object at boot.
fn counts_of(alloc: Global, all: &[Born]) -> Result<Vec<u32>, NoMemory>
    requires few { length all.now ≤ 65535 }
    requires linked { AreLinked all.now }
    ensures long { IfOk result (λ counts. length counts.items ≡ length all.now) }
    ensures counts { IfOk result (λ counts. (o : ObjNo) → slice_index counts.items o.0 ≡ born_count all.now o) }
{
    let mut counts = vec![in alloc; 0u32; all.len()]?;
    for (number, born) in all.iter().enumerate() {
        count_born(&mut counts, ObjNo(number as u16), born);
    }
    Ok(counts)
}

/// An object with so many references, at least one.
fn make_counted<W: RefWords + Drop>(objects: &mut ObjectTable<W>, row: &ObjectRow, count: u32)
    requires named { is_session row.now.kind ≡ false }
    requires alive { row.now.dead ≡ false }
    requires fresh { is_taken row.now.kind row.now.name objects.old.rows ≡ false }
    requires next { next_number objects.old.reuse objects.old.rows ≡ length objects.old.rows }
    requires room { length objects.old.rows < OBJECTS }
    requires made { objects.old.made ≡ length objects.old.rows }
    requires place { objects.old.made < objects.old.notes.places }
    requires some { 0 < count }
    requires small { count < 65536 }
    ensures rows { objects.new.rows ≡ objects.old.rows ++ Some (record row.now { place = length objects.old.rows }) ∷ [] }
    ensures made { objects.new.made ≡ objects.old.made + 1 }
    ensures reuse { objects.new.reuse ≡ objects.old.reuse }
    ensures counts { objects.new.counts ≡ slice_set objects.old.counts (length objects.old.rows) count }
    ensures last { slice_index objects.new.counts (length objects.old.rows) ≡ count }
    ensures notes { objects.new.notes ≡ objects.old.notes }
{
    let object = objects.make(row.kind, &row.name);
    for _held in 1..count {
        objects.add_ref(object);
    }
}

/// The objects at boot, each with the number of its references, in a table that uses numbers again or doesn't.
pub fn counted<W: RefWords + Drop>(
    alloc: Global,
    words: W,
    all: &[Born],
    reuse: bool,
) -> Result<ObjectTable<W>, NoMemory>
    requires places { length all.now ≤ length (W.meaning words).own }
    requires fresh { NoneCreated (W.meaning words) }
    requires few { length all.now ≤ OBJECTS }
    requires small { (o : ObjNo) → born_count all.now o < 65536 }
    requires linked { AreLinked all.now }
    requires born { AreNew all.now }
    ensures stand { IfOk result (λ objects. FirstStand all.now objects.rows objects.counts (length all.now)) }
    ensures made { IfOk result (λ objects. objects.made ≡ length all.now) }
    ensures reuse { IfOk result (λ objects. objects.reuse ≡ reuse) }
    ensures notes { IfOk result (λ objects. objects.notes ≡ no_notes (W.meaning words).identity (length (W.meaning words).own)) }
{
    let counts = counts_of(alloc, all)?;
    let mut objects = ObjectTable::new(alloc, words, reuse)?;
    for (number, born) in all.iter().enumerate() {
        make_counted(&mut objects, &born.object, counts[number]);
    }
    Ok(objects)
}
