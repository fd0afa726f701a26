//! What holds of the numbers of cells, and of lists that hold them: laws, each on a function that does
//! nothing.

ghost use Rattle.murphi_run.specs.Blocks.{BlocksAreApart, BlanksAreHeld, EntriesAreHeld};
ghost use Rattle.murphi_run.specs.Calls.{CallsGoBack, CalledBlocksAreApart, CalledEntriesAreHeld, CalledPlacesStay, CalledBodiesAreDeepest, CalledBodiesAreLeft};
ghost use Rattle.murphi_run.specs.Stretches.{StretchesAreThose, StretchesAreWritten};
ghost use Rattle.murphi_run.specs.PlaceLaws.{PlacesAreUnderThemselves, FieldsLeadUnder, IndicesLeadUnder, PlacesUnderAreThere, PlacesAreWithin, ValuesAreThere, ValuesAreWritten, ContentsAreThere, ContentsAreWritten};
ghost use Rattle.murphi_run.specs.Laws.{RanksAreWithin, RanksAreApart, CellsAreWithin, CellsAreApart, PlacesLeadOn, SameTypesStandAlike, ReadsAreThose, WritesAreThose};

/// Values of a type and cells of a variable are numbered below how many there are, and each number is that
/// of one only.
pub fn numbers_are_those_of_one()
    ensures ranks { RanksAreWithin }
    ensures values { RanksAreApart }
    ensures within { CellsAreWithin }
    ensures cells { CellsAreApart }
{}

/// What stands under a place is numbered from the first of it on, as a variable of its type would be; and
/// variables of one type are numbered alike, in whatever order the fields of records are written. So a
/// `var` formal is the number of the first cell of what it stands for.
pub fn places_have_the_numbers_of_their_types()
    ensures under { PlacesLeadOn }
    ensures alike { SameTypesStandAlike }
{}

/// Where a list holds the cells of the variables in scope, and their blocks have no cell in common, it has
/// the value of a cell at its number, and with another value there it holds the cells in which that one is
/// written: no other cell of any variable changes.
pub fn reading_and_writing_go_by_numbers()
    ensures reads { ReadsAreThose }
    ensures writes { WritesAreThose }
{}

/// What stands under a place is one stretch of the list: it holds the cells there, and with another stretch
/// in its place, that holds what is to be written, the list holds the cells in which that is written.
pub fn places_are_stretches()
    ensures holds { StretchesAreThose }
    ensures written { StretchesAreWritten }
{}

/// In the body of a rule or of a start state the blocks of its variables have no cell in common, a list of
/// undefined values holds the cells where every cell is undefined, and a list that holds the globals holds
/// the cells at the entry where undefined values stand behind it for the locals.
pub fn bodies_are_entered_with_their_variables()
    ensures apart { BlocksAreApart }
    ensures blanks { BlanksAreHeld }
    ensures entries { EntriesAreHeld }
{}

/// What field names and indices lead to is found step by step, and stands in the list wherever the place
/// does from which they lead. Where a list holds the cells of the variables in scope, reading at the number
/// of a place gives the value of its cell, or the values of the cells under it; and writing there gives a
/// list that holds the cells in which these are written.
pub fn places_are_found_step_by_step()
    ensures itself { PlacesAreUnderThemselves }
    ensures fields { FieldsLeadUnder }
    ensures indices { IndicesLeadUnder }
    ensures under { PlacesUnderAreThere }
    ensures within { PlacesAreWithin }
    ensures values { ValuesAreThere }
    ensures value_written { ValuesAreWritten }
    ensures contents { ContentsAreThere }
    ensures contents_written { ContentsAreWritten }
{}

/// A call of a routine runs its body with the routines before it. Where a list holds the cells in scope and
/// what the formals are given, the list with the formals by value and with undefined locals behind it holds
/// the cells at the entry: no two blocks have a cell in common, and every place stays where it was. When
/// the routine is left, the list without these cells holds what it leaves.
pub fn routines_are_entered_and_left()
    ensures back { CallsGoBack }
    ensures apart { CalledBlocksAreApart }
    ensures entries { CalledEntriesAreHeld }
    ensures places { CalledPlacesStay }
    ensures deepest { CalledBodiesAreDeepest }
    ensures left { CalledBodiesAreLeft }
{}
