//! Texts in fields of a fixed place.
ghost use Rattle.std.specs.Prelude.{◌≡◌, ◌==◌, not};
ghost use Rattle.acpi_base.specs.FromStd.{prefix_len};
ghost use Rattle.acpi_iommu.specs.Words.{up_to_zero};

/// How many bytes are before the first zero, or how many there are.
fn before_zero(bytes: &[u8]) -> usize
    ensures { result ≡ prefix_len (λ b. not (b == 0)) bytes.now }
{
    bytes.iter().take_while(|byte| **byte != 0).count()
}

/// The bytes before the first zero, or all.
#[tactic(auto, using(crate::proofs::Cuts::prefix_few))]
pub(crate) fn up_to_zero(bytes: &[u8]) -> &[u8]
    ensures { result.now ≡ up_to_zero bytes.now }
{
    &bytes[..before_zero(bytes)]
}
