ghost use Rattle.std.specs.Prelude.{◌≡◌, ◌≤◌, length};
ghost use Rattle.dvbsub_cmd.specs.GenText.{entry_line as entry_line_of, number_line as number_line_of};

use command_text::Line;

/// The line of a number, behind its name.
pub fn number_line(name: &str, number: u64) -> Line
    requires { length name.now ≤ 16 }
    ensures line { result ≡ number_line_of name.now number }
    ensures short { length result ≤ 128 }
{
    let mut line = Line::of(name);
    line.push_then_number(number);
    line.push_text("\n");
    line
}

/// The line of an entry behind so many packets: the time of its entry set, if there is one.
pub fn entry_line(missed: u64, time: Option<u64>) -> Line
    ensures line { result ≡ entry_line_of missed time }
    ensures short { length result ≤ 128 }
{
    let mut line = Line::of("entry");
    line.push_then_number(missed);
    match time {
        None => {
            line.push_text(" none\n");
            line
        }
        Some(time) => {
            line.push_then_number(time);
            line.push_text("\n");
            line
        }
    }
}
