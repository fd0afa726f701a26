//! What holds of states, steps and values, whatever the machine: laws, each on a function that
//! does nothing.

ghost use Rattle.std.specs.Prelude.{◌≡◌, ℕ, ◌<◌, ◌≤◌, ◌++◌, List, length, slice_get, Some, IsTrue, false};
ghost use Rattle.std.specs.List.{All};
ghost use Rattle.term_core.specs.declared.value.Value.{Value};
ghost use Rattle.term_core.specs.declared.machine.CellFamily.{CellFamily};
ghost use Rattle.term_core.specs.declared.machine.TermRule.{TermRule};
ghost use Rattle.term_core.specs.declared.machine.TermMachine.{TermMachine};
ghost use Rattle.term_core.specs.declared.term.Term.{Term};
ghost use Rattle.term_core.specs.Meaning.{Cells, value_of};
ghost use Rattle.term_core.specs.Cells.{Cell, State, IsState, cells, is_cell, place_of, cell_value, with_cell, filled, may_have, blank_value, blank_state};
ghost use Rattle.term_core.specs.Variables.{free_variables};
ghost use Rattle.term_core.specs.Reading.{occurs, cells_read};
ghost use Rattle.term_core.specs.Firing.{IsEnabled, IsStep, is_written, new_value, next_state, Starts, IsReached};
ghost use Rattle.term_core.specs.Whole.{IsWhole, HasBlank};
ghost use Rattle.term_core.specs.Substitution.{lifted};
ghost use Rattle.term_core.specs.Laws.{PlacingBinds, PlacingBounds, PlacingFits, ReadsAreCells, CellsGiveValues, ChoicesHavePlaces, PlacesHaveChoices, PlacesHaveCells, SortsListValues, FamiliesListValues, TablesAreWhole, TablesHaveValues, WritingGives, WritingKeeps, ValuesMakeTables, FilledIsState, AppendedCells, FirstFamilies, LaterFamilies, MoreFamiliesFit, PiecesHoldOrFail, PiecesNeverBoth, LabelsGiveOneRun, LabelledRunsAreRuns, RunsHaveLabels};

/// The place of a cell is where it stands in the list of cells, and a state that gives each cell the
/// value of a function has it there.
pub fn places_are_those_of_the_cells()
    ensures places { (N : ℕ) (families : List CellFamily) (f : ℕ) (at : List ℕ) → IsTrue (is_cell N families f at) → slice_get (cells N families) (place_of N families f at) ≡ Some (record { family = f; at = at }) }
    ensures filled { (N : ℕ) (families : List CellFamily) (g : Cells) (f : ℕ) (at : List ℕ) → IsTrue (is_cell N families f at) → cell_value N families (filled N families g) f at ≡ g f at }
    ensures written { (N : ℕ) (families : List CellFamily) (s : State) (f : ℕ) (at : List ℕ) (v : Value) → length s ≡ length (cells N families) → IsTrue (is_cell N families f at) → cell_value N families (with_cell N families s f at v) f at ≡ v }
    ensures others { (N : ℕ) (families : List CellFamily) (s : State) (f g : ℕ) (at other : List ℕ) (v : Value) → IsTrue (is_cell N families f at) → IsTrue (is_cell N families g other) → ((f ≡ g) × (at ≡ other) → ⊥) → cell_value N families (with_cell N families s f at v) g other ≡ cell_value N families s g other }
    ensures blank { (N : ℕ) (families : List CellFamily) (family : CellFamily) (f : ℕ) (at : List ℕ) → slice_get families f ≡ Some family → IsTrue (is_cell N families f at) → cell_value N families (blank_state N families) f at ≡ blank_value family }
{}

/// The value of a term depends only on the nodes of the variables that occur in it, and on the cells
/// that it reads.
pub fn values_depend_on_what_is_read()
    ensures variables { (N : ℕ) (read : Cells) (frame other : List ℕ) (t : Term) → length frame ≡ length other → ((k : ℕ) → k < length frame → IsTrue (occurs k t) → slice_get frame k ≡ slice_get other k) → value_of N read frame t ≡ value_of N read other t }
    ensures cells { (N : ℕ) (read other : Cells) (frame : List ℕ) (t : Term) → All (λ c. read c.family c.at ≡ other c.family c.at) (cells_read N read frame t) → value_of N read frame t ≡ value_of N other frame t }
    ensures more { (N : ℕ) (read : Cells) (frame more : List ℕ) (t : Term) → value_of N read (frame ++ more) (lifted (length frame) (length more) t) ≡ value_of N read frame t }
{}

/// Where each cell that an enabled rule writes gets a value that it may have, firing the rule is a
/// step; any other value that it writes makes it none. After a step a cell has the value of its
/// update, or its old value where it has none, so a step leads from a state to a state.
pub fn updates_make_steps()
    ensures taken { (N : ℕ) (families : List CellFamily) (s : State) (r : TermRule) (p : List ℕ) → IsEnabled N (cell_value N families s) r p → ((f : ℕ) (at : List ℕ) → IsTrue (is_cell N families f at) → IsTrue (is_written r f) → IsTrue (may_have N families f (new_value N (cell_value N families s) r p f at))) → IsStep N families s r p (next_state N families s r p) }
    ensures refused { (N : ℕ) (families : List CellFamily) (s : State) (r : TermRule) (p : List ℕ) (t : State) (f : ℕ) (at : List ℕ) → IsTrue (is_cell N families f at) → IsTrue (is_written r f) → may_have N families f (new_value N (cell_value N families s) r p f at) ≡ false → IsStep N families s r p t → ⊥ }
    ensures cells { (N : ℕ) (families : List CellFamily) (s : State) (r : TermRule) (p : List ℕ) (t : State) (f : ℕ) (at : List ℕ) → IsStep N families s r p t → IsTrue (is_cell N families f at) → cell_value N families t f at ≡ new_value N (cell_value N families s) r p f at }
    ensures state { (N : ℕ) (families : List CellFamily) (s : State) (r : TermRule) (p : List ℕ) (t : State) → IsState N families s → IsStep N families s r p t → IsState N families t }
    ensures starts { (N : ℕ) (m : TermMachine) (k : ℕ) (p : List ℕ) (t : State) → IsWhole m → Starts N m k p t → IsState N m.families t }
{}

/// States that have one value at each cell are one. The state before anything is written is a state
/// of a whole machine, so is one in which a cell gets a value that it may have, and so is each that
/// a run reaches.
pub fn states_have_a_value_at_each_cell()
    ensures one { (N : ℕ) (families : List CellFamily) (s t : State) → length s ≡ length (cells N families) → length t ≡ length (cells N families) → ((f : ℕ) (at : List ℕ) → IsTrue (is_cell N families f at) → cell_value N families s f at ≡ cell_value N families t f at) → s ≡ t }
    ensures blank { (N : ℕ) (families : List CellFamily) → All HasBlank families → IsState N families (blank_state N families) }
    ensures written { (N : ℕ) (families : List CellFamily) (s : State) (f : ℕ) (at : List ℕ) (v : Value) → IsState N families s → IsTrue (is_cell N families f at) → IsTrue (may_have N families f v) → IsState N families (with_cell N families s f at v) }
    ensures reached { (N : ℕ) (m : TermMachine) (s : State) → IsWhole m → IsReached N m s → IsState N m.families s }
{}

/// Placing terms in all variables of a term is binding the variables to the nodes of these terms.
pub fn placing_keeps_values()
    ensures values { PlacingBinds }
    ensures variables { PlacingBounds }
    ensures reads { PlacingFits }
{}

/// What a fitting term reads are cells, so its value depends on cells alone.
pub fn fitting_terms_read_cells()
    ensures reads { ReadsAreCells }
    ensures values { CellsGiveValues }
{}

/// Choices of nodes, cells, and the values of a sort stand in lists, each at its place and no others.
pub fn lists_are_in_order()
    ensures choices { ChoicesHavePlaces }
    ensures places { PlacesHaveChoices }
    ensures cells { PlacesHaveCells }
    ensures sorts { SortsListValues }
    ensures families { FamiliesListValues }
{}

/// Tables of any type of value: the same that `places_are_those_of_the_cells` says of states.
pub fn tables_have_a_value_at_each_cell<T>()
    ensures whole { TablesAreWhole T }
    ensures values { TablesHaveValues T }
    ensures written { WritingGives T }
    ensures others { WritingKeeps T }
    ensures one { ValuesMakeTables T }
{}

/// A state filled with values that its cells may have is a state, and families after others leave
/// the others' cells as they were.
pub fn states_can_be_filled_and_joined()
    ensures filled { FilledIsState }
    ensures cells { AppendedCells }
    ensures first { FirstFamilies }
    ensures later { LaterFamilies }
    ensures reads { MoreFamiliesFit }
{}

/// Of each list of pieces all hold, or some is false.
pub fn pieces_hold_or_one_is_false()
    ensures one { PiecesHoldOrFail }
    ensures never_both { PiecesNeverBoth }
{}

/// A start and a list of firings with their nodes give at most one run, and each run is given so.
pub fn labels_give_runs()
    ensures one { LabelsGiveOneRun }
    ensures runs { LabelledRunsAreRuns }
    ensures labels { RunsHaveLabels }
{}
