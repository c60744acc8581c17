ghost use Rattle.std.specs.Prelude.{◌≡◌};
ghost use Rattle.cli_header.specs.Said as said;
ghost use Rattle.c_values.specs.Headers.{header_of};
ghost use Rattle.clim_c.specs.Faults.{fault_of};
ghost use Rattle.clim_c.specs.Words.{AllHold, FirstBroken, OnFalse, OnTrue, image_of, rules_of_heads};

use crate::fault::ClimFault;
use c_values::{ClimHeader, reported_header};
use opening::read_heads;

/// Reads the CLI header of a file (II.25.3.3), if all headers before the streams meet their rules. Otherwise it writes
/// the fault of the first rule that fails, and the header is unchanged.
///
/// It does not look at tables, heaps or signatures.
#[unsafe(no_mangle)]
pub extern "C" fn clim_read_header(
    file: &[u8],
    header: &mut ClimHeader,
    fault: &mut ClimFault,
) -> bool
    ensures sound { OnTrue result (AllHold (rules_of_heads file.now) × (header_of header.new ≡ said.header_of (image_of file.now))) }
    ensures first_error { OnFalse result (FirstBroken (rules_of_heads file.now) (fault_of fault.new)) }
    ensures same { OnFalse result (header.new ≡ header.old) }
    ensures quiet { OnTrue result (fault.new ≡ fault.old) }
{
    match read_heads(file) {
        Ok(heads) => {
            *header = reported_header(&heads.header);
            true
        }
        Err(found) => fault.report(found),
    }
}
