//! The texts of the program's own.

/// What `--version` prints.
pub const VERSION: &str = "dap 0.1.0\n";

/// What `--help` prints.
pub const HELP: &str = "Usage: dap run [TASKFILE] < SCRIPT
       dap check TASKFILE
       dap load N SEED

Runs the two aggregators of a private measurement service, a leader and a helper,
on the script that stands on standard input, and prints what its lines print.

  dap run [TASKFILE]  run the script, with the tasks of the file beside its own
  dap check TASKFILE  print each task of the file as its line
  dap load N SEED     print a script of N measurements, of 1 to 50,000, which differ
                      with the seed: `dap load 1000 7 | dap run` runs it
  dap --help          print this text
  dap --version       print the version

Lines of a script, ASCII, their parts divided by one space, each ended by a line
feed; MIN is 1 to 1,000,000, PRECISION 1 to 1,000,000,000, T, TIME and START at most
999,999,999,999,999,999, VALUE a number below 2^64, or up to 1,024 of them with commas
between for a vector, and BUCKETS 1 to 64:
  task NAME count MIN PRECISION             a task that counts measurements of 1
  task NAME sum BITS MIN PRECISION          one that adds numbers of 1 to 64 bits
  task NAME histogram B0,B1 MIN PRECISION   one that counts numbers by the bounds that
                                            they are not above, 1 to 1,023
  task NAME vector LEN BITS MIN PRECISION   one that adds lists of LEN numbers, 1 to
                                            1,024, of 1 to 32 bits, place by place;
                                            LEN times BITS is at most 2,047
  task .. PRECISION expires T               a task that takes no more reports once the
                                            moment is T
  now T                                     the moment is T from here on, if it was
                                            less
  measure NAME ID TIME VALUE SEED           a client's measurement; ID and SEED are
                                            32 hex digits in lower case
  upload BASE64                             a client's report, as its bytes
  collect NAME START [BUCKETS]              the answer of the batch from START on, of
                                            one bucket if their number isn't given

A bucket spans PRECISION units of time. A batch is collected from MIN reports on,
and shares no bucket with another batch. An empty line, or one that begins with #,
does nothing. At most 16 tasks are known in a run.

A task file is TOML: a table [[task]] for each task, with name, kind (count, sum
with bits, histogram with bounds, vector with len and bits), min, precision, expires
if it does, and the keys verify (32 hex digits), leader and helper (64 each).

The exit status is 0 where the script was run to its end. Else a line on standard
error says what stopped it.
";
