//! The texts of help.

/// The help of the argument IMAGE.
pub(crate) const IMAGE_HELP: &str =
    "An ELF file, or @sample, the built-in kernel of two processors";

/// The end of the program's help.
pub(crate) const AFTER_HELP: &str = "\
Exit status:
  0  a finished demo, schedule, debug, gdb, as or dis, a machine that switched
     itself off, a log that agrees, a clean run, search or exploration, or help
  1  a fault, named on standard error, or a refused event of run, trace or
     console
  2  a rejected command line
  3  the schedule, the events or the Steps of the threads ended
  4  a log that differs, a stale use, a run that goes wrong in search or explore,
     or a strict machine that a conflict switched off
  5  no processor can go on, and no byte or key is left
  6  explore found more states than it may";

/// The end of the help of `run`.
pub(crate) const AFTER_RUN_HELP: &str = "\
The schedule is read from standard input, an event a line; the image and the
schedule have at most 402653184 bytes:
  s P [N]  N Steps of processor P, 1 to 1000000; one where N is left out
  k HH     a byte is typed at the console, two hexadecimal digits
  o        the console has sent its byte
  # ...    a comment; an empty line is ignored too
Its first line may be a machine line, as schedule and search print it: `# machine RAM CPUS`, then
` line` where ll links to one, then ` strict`. What --ram, --cpus, --link and --strict don't say is
that machine's. A log may stand in the schedule's place, as for debug: its events are made.

With --threads each processor has a thread that makes Q Steps, unless the
machine is switched off, and no schedule is read. A thread makes up to K Steps
in one go (--burst); the host says which thread makes the next ones.

With --turns N or --random SEED no schedule is read: the events are chosen.
The next Step is that of a ready processor, one that isn't stopped and doesn't
wait: N Steps of each in turn, or one at random, the same each time for a SEED.
With --delayed J,J,.. beside --turns a processor is passed over at the choices
of these numbers, counted from 0: the next one in turn makes the Step, and a
turn of it begins.
With --changes D --within K the Steps are those of the ready processor of the
highest priority; the priorities are drawn at the start, and D of them fall in
each stretch of K Steps. A byte is sent once --transfer events were accepted
after it was written; a key of --keys is typed once --gap events were accepted
after the last one; both also where no processor is ready.
With --after FILE the events of a schedule or a log come first, and the order
chooses those behind them, as if the run began there: --events, turns, stretches
and choices count from there. FILE may name the machine as a schedule may. The
order chooses none where an event of FILE is refused or switches the machine off.

The log keeps the last N entries (--log). --show-log prints it before the last
line, --only-log prints it alone, and --only-output the console's bytes alone;
with these two the `stop:` line goes to standard error. The log's first line
names the machine and the image. The next one is `m161 log 2 word` or
`m161 log 2 line`, by --link, and with --strict `m161 log 3 word strict` or the
same with line; where entries before them were dropped, it says tail in place
of log, and then their number, as `m161 tail 2 word DROPPED`. A log can be
replayed, and its tail can't: the same run with a greater --log has the whole
log.

With --traps a line behind the registers counts the traps of a processor with one
code, in the order of the first of each: `traps P CODE NAME N first K PC ADDRESS`.
There are N of them; the first is event K, from 0; PC is EPC and ADDRESS BadVAddr
right after it, or - where the code is none of 1 to 5. The events are made twice
then; those of --threads are the log's, so --log has room for each Step.

Where traps go wrong, standard error says so behind all else: `s161: note trap K P CODE NAME VECTOR` of the
first trap, event K, behind which the word at its vector is 0 and not the image's; and `s161: note trapping
N P CODE NAME` of each processor whose last N Steps, three or more, all trapped. Beside --threads it doesn't.

With --strict a tlbwi or tlbwr of a row that would overlap another one isn't
done: it is a conflict, and switches the machine off. Two rows overlap where
they have the same page and the same identifier, or the same page and one of
them is global, valid or not. `stop: conflict P I J` tells the processor, the
row that was to be written, and the lowest one that it would have overlapped.

Exit status:
  0  the machine switched itself off
  1  a fault, named on standard error, or a refused event
  3  the schedule, the events or the Steps of the threads ended
  4  a conflict switched the strict machine off
  5  no processor can go on, and no byte or key is left (stop: stuck)

Example:
  s161 run kernel.elf --turns 1
  printf 's 0 1000\\nk 41\\ns 0 1000\\n' | s161 run kernel.elf --show-log
  s161 run kernel.elf < bad.schedule";

/// The end of the help of `console`.
pub(crate) const AFTER_CONSOLE_HELP: &str = "\
Each byte that the kernel's console sends goes to standard output before the next event, and the
bytes of standard input are its keys. A key is read only where the run would have it typed: where no
processor is ready, or every --gap events. So a kernel that polls for keys needs --gap N. The events
are chosen as by run, by turns of one Step if no order is given; the same bytes make the same run.
There is no limit for the length of the input.

A terminal hands over whole lines, and shows what is typed itself, unless it is told not to:
  stty -icanon -echo; s161 console kernel.elf; stty sane

Why the run stopped goes to standard error. Exit status:
  0  the machine switched itself off
  1  a fault, named on standard error, or a refused event
  3  --events events were made
  4  a conflict switched the strict machine off
  5  no processor can go on, and the input has ended (stop: stuck)";

/// The end of the help of `search`.
pub(crate) const AFTER_SEARCH_HELP: &str = "\
For each of N seeds, from --from on, a run is made whose order is drawn from the seed: at random, or
by priorities with --changes and --within. With --delays D the runs are all those by turns of N Steps
(--turns) in which a ready processor is passed over at most D times, as by --delayed of run: at
choices from --from on, and below --within. The first run that goes wrong ends the search:
  stale PLACE PROCESSOR ADDRESS ROW   as audit says it, by the watches of --watches
  reached PLACE PROCESSOR ADDRESS     event PLACE is a Step of the processor that fetches a word
            at an address of --never: a number in hexadecimal, or a name of the image's symbols,
            or name+NUMBER
  conflict PROCESSOR ROW OTHER        with --strict: as the last line of run says it
  stuck     no processor can go on, and no byte or key is left; with --output only where
            the console's bytes aren't the file's
  output    with --output: the machine is off, and the console's bytes aren't the file's
  hung      the machine is neither off nor stuck behind any event, and from the last one on no order
            of events leads to either; those that do lead to at most N states (--hung)
  end       with --output: the machine is neither off nor stuck after --events events
Its schedule is printed, shortened unless --whole is given, behind three comments: its machine line,
its seed or its delays, and what is wrong. `clean N` says that no run goes wrong; `clean N cut M` that M of them
weren't over after --events events. With --jobs N so many threads make the runs, as far as the
host has them; what is printed is the same. With --after FILE each run goes on behind the events of
a schedule or a log, which may name the machine, as for run: the verdict is that of all its events, and
those of FILE aren't shortened. A file has at most 402653184 bytes.

Exit status:
  0  no run goes wrong
  1  a fault, named on standard error
  4  a run goes wrong, and its schedule was printed

Example:
  s161 search kernel.elf --cpus 2 --seeds 1000 --watches watches > bad.schedule
  s161 audit kernel.elf watches < bad.schedule";

/// The end of the help of `schedule`.
pub(crate) const AFTER_SCHEDULE_HELP: &str = "\
An order is needed, --turns or --random, as for run. What is printed is a machine line, and a schedule
of the events that were made, at most 16777216: run over it prints what the same run by its order
prints, but for the last line where that says why no more events were chosen. With --after FILE the
events of a schedule or a log come first, as for run. A file has at most 402653184 bytes.

Exit status:
  0  the events were made
  1  a fault, named on standard error

Example:
  s161 schedule kernel.elf --cpus 2 --random 7 > seed-7.schedule
  s161 run kernel.elf < seed-7.schedule";

/// The end of the help of `explore`.
pub(crate) const AFTER_EXPLORE_HELP: &str = "\
Every order of events is looked at: at any time each processor may make a Step, a byte that the
console is sending may be sent, and the next key be typed. States that differ in time alone are one,
as long as no Step reads time. The answers:
  clean N      no order, however long, goes wrong, and each can be gone on with to an end; N states
  open N L     there are more than N states; nothing goes wrong in the first L events
or, as search prints it, a machine line and `# states S`, S states being found before, then
  # stale ..   # reached ..   # conflict ..   # stuck   # output
and a shortest schedule of what goes wrong; or
  # hung       and a shortest schedule to a state from which no order leads to an end
An end is a machine that is off, or one in which nothing is left to do and the console has sent the
bytes of --output. An ADDRESS of --never is written as in debug, or is a name of the image's symbols.
A file has at most 402653184 bytes.

Exit status:
  0  clean
  1  a fault, named on standard error
  4  something goes wrong, or hangs
  6  open: there are more states than --states

Example:
  s161 explore kernel.elf --cpus 2 --ram 65536";

/// The end of the help of `trace`.
pub(crate) const AFTER_TRACE_HELP: &str = "\
The events are those of run: a schedule or a log from standard input, which may name the machine, or
chosen by an order. A line is
  K P PC WORD TEXT  ITEMS   event K, from 0, is a Step of processor P: its address, the word that is
                            fetched and its text, or - where none is; and what the Step changed
  K k HH                    a byte is typed
  K o                       the console has sent its byte
ITEMS are state=, r1= to r31= (with --names at= to ra=), hi=, lo=, the registers of coprocessor 0 by
their names, tlb ROW=, [ADDRESS]= for a stored word of RAM, link=ADDRESS, unlink P, and of the board
latch=, waiting=, wirq=, rirq=, irqe=, cpue=, cirqe P=, cipi P=, cram P K=, each where it has
changed; then trap CODE VECTOR, idle, off or conflict ROW OTHER; and starts P. Random, Count and
PRId aren't shown. With --loads the first item of a Step that loads from RAM or a slot, and doesn't
trap, is (ADDRESS)=: the physical address of the word that has the bytes, and that word before the
Step, or what was read of the slot; of a slot a load to $0 shows none. The last line says why the run
stopped. With --symbols the place of an address of RAM, as one in kseg0, stands in (ADDRESS <NAME>)=
and [ADDRESS <NAME>]=, too. The run is made to its end, and events K to K + N - 1 have lines (--from,
--count), of them only those that --only, --touches, --outcomes and --shared leave; their numbers
stay. WORD is the address of a byte of RAM in hexadecimal, physical or in kseg0 or kseg1, or a name of
the image's symbols, or NAME+DIGITS: a Step has a line if it loads or stores the word with this byte.
With --shared it has one if it loads or stores a word that Steps of two processors load or store, at
least one of them storing, among the events K to K + N - 1; the run is made twice then.
The image, a schedule, keys and the file of --after have at most 402653184 bytes each.

Exit status:
  0  the machine switched itself off
  1  a fault, named on standard error, or a refused event
  3  the schedule or the events ended
  4  a conflict switched the strict machine off
  5  no processor can go on, and no byte or key is left (stop: stuck)

Example:
  s161 trace kernel.elf --cpus 2 --random 7 --from 1000 --count 50
  s161 trace kernel.elf --loads < bad.schedule";

/// The end of the help of `replay`.
pub(crate) const AFTER_REPLAY_HELP: &str = "\
The log is what run --only-log prints; it may be longer than --log. Its first line names the size of
the machine and the image's SHA-256: a size that isn't given is taken from it, one that is given has
to be the same, and so has the image. A log without this line is replayed with the size that is
given, 1048576 bytes and 1 processor where nothing is. What ll links to is said by the next line,
`m161 log 2 word` or `m161 log 2 line`; after `m161 log 1`, of an older log, it is a word. That of a
strict machine is `m161 log 3 word strict` or the same with line. The answer is `agrees`, or
`differs K` where entry K, from 0, is the first that another run makes otherwise. A file has at most
402653184 bytes.

Exit status:
  0  the log agrees
  1  a fault, named on standard error
  4  the log differs

Example:
  s161 run kernel.elf --cpus 2 --random 7 --only-log > seed-7.log
  s161 replay kernel.elf seed-7.log";

/// The end of the help of `debug`.
pub(crate) const AFTER_DEBUG_HELP: &str = "\
The events are those of FILE, a schedule or a log (run --only-log), or those that an order chooses:
give one of the two. A log says the machine's size, what ll links to and whether it is strict, as for
replay, and the machine line of a schedule says it as for run; without one it is 1048576 bytes, 1
processor, a word and not strict where nothing is given. --after FILE gives an order the events that
come first, as for run.
The commands are read from standard input, one a line, and each is answered before the next one is
read:
  b P ADDR  d P ADDR   sets or deletes a breakpoint of processor P
  g  g N               makes the other events, or N of them, up to a breakpoint
  u m ADDR  u r P N  u i P I  u t P  u o
                       as g, and stops after the first event that changes the word of RAM, register
                       N of P or row I of its TLB, that traps P, or that sends a byte
  j K                  goes back to the state before event K, or on, whatever the breakpoints
  s P  s P N  k HH  o  makes an event, or N Steps, that aren't FILE's
  w                    shows where each processor is
  a                    shows how many events were made, and how many with the others
  r P  c P  t P        shows registers, coprocessor 0, the TLB
  r P N                shows register N of P
  m ADDR N  x ADDR N   shows N words of memory or of code, 1 to 1024
  x ADDR N P           the same as processor P would fetch them
  l N                  shows the log's last N entries, 1 to 1024, or all that it keeps
  y N                  shows the last N events that were made, 1 to 1024, as trace does
  help  quit
ADDR has one to eight hexadecimal digits, behind 0x or not; with --symbols it may be a name too, or
NAME+N, N being written so. Spaces and tabs count as one space between words, and as none around them.
An error of a command is printed as `? Name`, and the next one is done; standard error says then
what the command takes.
The image, FILE and keys have at most 402653184 bytes each, and so has a line of the input.

Exit status:
  0  the commands ended
  1  a fault, named on standard error

Example:
  printf 'b 0 80000208\\ng\\nr 0\\n' | s161 debug kernel.elf schedule
  s161 debug kernel.elf --cpus 2 --random 7";

/// The end of the help of `gdb`.
pub(crate) const AFTER_GDB_HELP: &str = "\
The events and the machine are those of debug: the run is fixed before the first packet, and what a
client sends goes along it, forwards and backwards, and never changes it. Packets are read from
standard input and answered on standard output. A thread is a processor: thread 1 is processor 0.
Registers and memory are read, never written. Breakpoints, watches, steps and their reverse stop at
a place, a number of events made; a watch stops before the event that loads or stores. Lines of
`monitor`:
  at  why              the place and what comes next; why the last move stopped
  goto K               marks place K: a move that reaches it stops there
  where                where each started processor is
  regs [P]  cop0 [P]  tlb [P]
                       registers, coprocessor 0, the TLB of P, or of the processor that GDB looks at
  memory ADDR N        N words of memory, 1 to 1024
  trace N              the lines that trace has of the last N events, 1 to 1024
  output  schedule     the console's bytes so far; the events so far, as a schedule
  help
The image, FILE and keys have at most 402653184 bytes each.

Exit status:
  0  the client left, or the input ended
  1  a fault, named on standard error

Example:
  gdb-multiarch kernel.elf -ex 'target remote | s161 gdb kernel.elf --cpus 2 --random 7'";

/// The end of the help of `audit`.
pub(crate) const AFTER_AUDIT_HELP: &str = "\
The schedule is that of run, from standard input, or a log. The watches say what to look for, one a line:
  w ID PAGE PTE DONE   the page PAGE of address space ID; its entry, in EntryLo's form, is the word
                       at PTE, and the initiator of a shootdown writes the word at DONE when it is
                       over: physical addresses
ID is a decimal number, PAGE has five hexadecimal digits, PTE and DONE have eight. The answer is
`clean`, or `stale PLACE PROCESSOR ADDRESS ROW`: the first event, from 0, whose Step used a row of
the TLB that its page's entry doesn't allow any more, after the shootdown was over. A file and the
input have at most 402653184 bytes.

Exit status:
  0  the run is clean
  1  a fault, named on standard error
  4  a stale use

Example:
  printf 'w 5 00400 00003000 00003004\\n' > watches
  s161 audit kernel.elf watches < bad.schedule";

/// The end of the help of `as`.
pub(crate) const AFTER_AS_HELP: &str = "\
The text is read from standard input, and its ELF file is written to standard output. A fault is
`s161: source LINE:COLUMN N Name (..)`. With --symbols the file has a symbol table of the labels. The
text has at most 402653184 bytes.

Example:
  s161 as < kernel.s > kernel.elf";

/// The end of the help of `dis`.
pub(crate) const AFTER_DIS_HELP: &str = "\
For each segment that is loaded, a line a word: its address, the word, and its assembly text. With
--symbols the name of the nearest symbol, <NAME> or <NAME+N>, stands behind an address. The image is
loaded into 16777216 bytes of RAM; its file has at most 402653184 bytes.";
