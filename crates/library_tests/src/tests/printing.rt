//! The printed layout of every item and statement.

use script_front::{parse, print};
use std::alloc::Global;
use std::test::Fail;

/// Parses a text and prints the script.
fn printed_of(alloc: Global, text: &str) -> Result<String, Fail> {
    let script = parse(alloc, text)?;
    Ok(print(alloc, &script)?)
}

/// Whether a text is printed in this way.
fn is_printed(alloc: Global, text: &str, wanted: &str) -> Result<bool, Fail> {
    Ok(printed_of(alloc, text)?.as_str() == wanted)
}

/// A printed text with every item and statement, nested braces, and `else`.
const EVERY: &str = "ensemble E1C5
period 4 notice 24 budget 20
sub 63 at 1023 eep 2-B 65535
sub 0 at 0 eep 4-A 0
service 00C2
service 0000C221
audio 63 sub 5 in C221
data 60 sub 6 in E1C20001
carry 4095 in C221
packet 7 raw type 59 sub 9 address 1023
packet 0 groups type 0 sub 0 address 65535
define one {
}
define two_2 {
  apply one
  end
}
begin
sub 1 at 2 eep 1-A 3
service FFFF
audio 0 sub 0 in 0000
data 1 sub 2 in 00000000
carry 0 in FFFFFFFF
packet 1 raw type 2 sub 3 address 4
drop sub 1
drop service C221
drop packet 12
drop component sub 3 in C221
drop component packet 4 in 0000C221
move sub 5 at 6
rate sub 7 8
wait 65535
wait contact 15 closed
wait contact 0 open
until 06:05:09
until 23:59:59
commit in 60000
commit at 65535
join
settle
if contact 3 {
  if contact 4 {
    repeat 5 {
      apply two_2
    }
  } else {
    forever {
    }
  }
} else {
  join
}
end
";

#[test]
fn every_statement_is_printed_on_a_line_of_its_own(rt: HostRuntime) -> Result<(), Fail> {
    assert!(rt; is_printed(rt.alloc(), EVERY, EVERY)?);
    let text = "ensemble 00C5 mode 4 period 60 notice 248 budget 255 begin";
    let wanted = "ensemble 00C5 mode 4\nperiod 60 notice 248 budget 255\nbegin\n";
    assert!(rt; is_printed(rt.alloc(), text, wanted)?);
    Ok(())
}
