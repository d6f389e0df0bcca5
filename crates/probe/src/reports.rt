// The report that `ringline` prints. The call answers a length and no number, so the number is always 0.
ghost use Rattle.std.specs.Prelude.{◌≡◌, length};
ghost use Rattle.report.specs.Report.{report_length, report_room};
ghost use Rattle.probe.specs.Told.{told, length_fields};

use super::tell::put;

#[unsafe(no_mangle)]
pub extern "C" fn probe_report(input: &[u8], room: &mut [u8], values: &mut [u64]) -> u8
    ensures value { result ≡ 0 }
    ensures values_after { values.new ≡ told (length_fields (report_length input.now (length room.old))) values.old }
    ensures room_after { room.new ≡ report_room input.now room.old }
{
    let size = report::report(input, room);
    put(values, &[size as u64]);
    0
}
