//! Lists that grow while they are read.
ghost use Rattle.std.specs.Prelude.{◌≡◌, ◌++◌};
ghost use Rattle.murphi_protocols.specs.Parts.{added, Joined};

use murphi_expressions::step::Stop;
use sqlite_items::Items;

/// More at the end of a list.
pub fn append<T: Drop>(list: &mut Items<T>, more: Items<T>) -> Result<(), Stop>
    ensures { Joined list.old more list.new result }
{
    match list.append(more) {
        Ok(()) => Ok(()),
        Err(_) => Err(Stop::Memory),
    }
}

/// One more at the end of a list, if there is one.
pub fn push_some<T: Drop>(list: &mut Items<T>, item: Option<T>) -> Result<(), Stop>
    ensures { Joined list.old (added item) list.new result }
{
    match item {
        None => Ok(()),
        Some(item) => match list.push(item) {
            Ok(()) => Ok(()),
            Err(_) => Err(Stop::Memory),
        },
    }
}
