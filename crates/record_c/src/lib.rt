// The export for the C match server: four frames in, the bytes of the test line out.
#![tactic(auto)]

ghost use Rattle.std.specs.Prelude.{◌≡◌};
ghost use Rattle.record_definitions.specs.Export as Export;

use record::export;

// 13, 37 or 53, the bytes written to the front of the output; or 256 and a refusal, and the output as it was.
#[unsafe(no_mangle)]
pub extern "C" fn netxurbil_test(frames: &[u8], out: &mut [u8]) -> u32
    ensures { (result ≡ Export.export_number frames.now out.old)
        × (out.new ≡ Export.export_output frames.now out.old) }
{
    export::netxurbil_test(frames, out)
}
