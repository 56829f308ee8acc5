//! Laws of the definitions: what a cell gives, and which cells are refused with which fault, by
//! conditions on readings.
ghost use Rattle.std.specs.Prelude.{List};
ghost use Rattle.asm_syntax.specs.declared.statement.Statement.{Statement};
ghost use Rattle.asm_build.specs.Reading.{Entries};
ghost use Rattle.asm_build.specs.Cells.{IsReadOff, IsJudged};

/// What a cell gives is what its consistent reading gives. There is at most one, so that each gives
/// the same.
pub fn meaning_is_read()
    ensures { (kept : Entries) (ss : List Statement) → IsReadOff kept ss }
{}

/// A cell gives something exactly if no fault stands in it. A cell's fault is the first one of its
/// layout or, if that has none, the first one of its values. So the two rounds return what the
/// cell's readings say, and nothing else.
pub fn cell_is_judged()
    ensures { (kept : Entries) (ss : List Statement) → IsJudged kept ss }
{}
