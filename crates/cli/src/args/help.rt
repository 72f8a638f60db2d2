//! The help of the program as a whole.

/// The version of the program, as CHANGELOG.md counts.
pub(crate) const VERSION: &str = "0.3.0";

pub(crate) const PROGRAM: &str = "\
Generates, decodes, checks and plans DAB multiplex reconfigurations: changes of the sub-channels,
services and components of an ensemble, as its Fast Information Channel announces them (EN 300 401
clause 6.5, FIG 0/0 to 0/3). Plans of changes are compiled, verified, and played frame by frame.";

pub(crate) const AFTER_PROGRAM: &str = "\
What the commands read and write:
  frame    reads a configuration record, a short binary file, or a script, and prints the FIBs of
           one frame: three, in transmission mode 3 four, as hexadecimal digits or as bytes
  listen   reads a file of FIBs of 32 bytes, and prints the configuration that they describe, as a
           listing or as a script
  check    reads a file of FIBs, and prints each announcement, swap and fault
  merge    reads the frames of a plan and those of a multiplexer, and writes the plan's with the
           labels and other FIGs of the multiplexer in their free room
  diff     reads two scripts, and prints the plan that leads from the configuration of the first to
           that of the second
  compile  reads a script, the text of a plan of reconfigurations, and writes a code file
  verify   reads a code file, the binary form of a plan, and prints whether it can be played without
           going wrong, or what is wrong with it and where
  map      reads a script, and prints or draws which capacity units each sub-channel has
  timeline plays a code file or a script over a file of events without writing frames, and prints or
           draws each change with its time
  play     plays a code file over a file of events (frames, and contacts that close and open), and
           writes the FIBs of each frame to a file
  debug    steps through a code file by a file of commands, and prints the player's state after each
  live     plays a code file over lines on standard input as they come, and writes the FIBs of each
           line's frames to standard output before it reads the next line
'dabplan help COMMAND' explains a command: its options, each line that it prints, and examples.
'dabplan help CAUSE' says what the cause of a refusal means, and what to do about it, as
'dabplan help Pending'.

Example: a plan for the night, compiled, and played for the half hour from a quarter to ten
  dabplan compile examples/any_hour.plan night.code
  echo 'frames 75000' > night.events
  dabplan play night.code night.events night.fib --time 21:45:00
  dabplan check night.fib

Exit status:
  0  done, or help was asked for
  1  refused: the one line printed says what is wrong with the input, or which file can't be read
  2  the command line is wrong
  3  'check' found faults in the stream";
