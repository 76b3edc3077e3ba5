//! The list of the commands.

ghost use Rattle.std.specs.Prelude.{◌≡◌};
ghost use Rattle.s161_debug.specs.Helps.{help_text};

// A line for each command, its forms first.
const HELP: &str = "\
b P ADDR                   sets a breakpoint of processor P; with --symbols ADDR may be a name
d P ADDR                   deletes it
s P | s P N                makes a Step of processor P; N Steps, up to a stop
k HH                       types a byte
o                          the console has sent its byte
g | g N                    makes the events that are left, or the first N, up to a stop
u m ADDR                   g, and stops once the word of RAM is another
u t P                      g, and stops at a trap of processor P
u r P N                    g, and stops once its register N is another
u i P I                    g, and stops once its TLB row I is another
u o                        g, and stops once a byte is sent
j K                        goes back to the state before event K, or on, whatever the breakpoints
w                          where the started processors are
a                          how many events were made, and how many with those that are left
r P                        the registers of processor P
r P N                      its register N
c P                        its registers of coprocessor 0
t P                        its TLB
m ADDR N                   N words of RAM
x ADDR N | x ADDR N P      N instructions; as processor P fetches them
l N                        the last N entries of the log
y N                        the last N events that were made, as trace shows them
help                       prints this
quit                       ends
";

/// The list of the commands.
#[tactic(auto, unfolding(crate::specs::Helps::help_text))]
pub(crate) fn help() -> &'static str
    ensures { result.now ≡ help_text }
{
    HELP
}
