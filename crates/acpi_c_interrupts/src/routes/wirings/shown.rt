//! Made by scripts/shown: records for C, and what is written of C's, as definitions in specs/ have them.
ghost use Rattle.std.specs.Prelude.{◌≡◌};
ghost use Rattle.acpi_c_interrupts.specs.Routes.{interrupt_record};

use crate::apics::records::Interrupt;
use acpi_base::model::IsaInterrupt;

pub(crate) fn interrupt_record(i: &IsaInterrupt) -> Interrupt
    ensures { result ≡ interrupt_record i.now }
{
    Interrupt {
        global_system_interrupt: i.global_system_interrupt,
        polarity: i.polarity.code(),
        trigger: i.trigger_mode.code(),
        reserved: [0; 2],
    }
}
