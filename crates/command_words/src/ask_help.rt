// The part of `ask --help` about the lines that it takes.

// A line each, with its words and its purpose.
pub(crate) const ASK_HELP: &str = "Lines (corekeep help LINE says more):\n\
\x20\x20list                                 the cases, in the order of their numbers\n\
\x20\x20free                                 how many data blocks are free\n\
\x20\x20delete N                             deletes a case\n\
\x20\x20pin N                                keeps a case from deletion and retirement\n\
\x20\x20unpin N                              keeps a case no longer\n\
\x20\x20label N [TEXT]                       gives a case a label of at most 64 bytes, or none\n\
\x20\x20retire [keep=K] [bytes=B] [before=T] deletes cases that are not pinned\n\
\x20\x20would-retire [keep=K] ..              what `retire` would drop, without a change\n\
\x20\x20upgrade                              brings the archive to version 2 of the layout, which keeps labels\n\
\x20\x20header N                             the file header and the program headers of a core or an executable\n\
\x20\x20notes N                              the notes of a core\n\
\x20\x20threads N                            the threads of a core; the thread that dumped comes first\n\
\x20\x20regs N T                             the registers of thread T\n\
\x20\x20process N                            the process that dumped core\n\
\x20\x20signal N                             the signal that ended the process, and the address of the fault\n\
\x20\x20auxv N                               the auxiliary vector\n\
\x20\x20files N                              the files that were mapped\n\
\x20\x20maps N                               the ranges of memory\n\
\x20\x20dump N ADDR LEN                      LEN bytes of memory from ADDR on, at most 65,536\n\
\x20\x20at N ADDR                            what is at ADDR: range, file, function and whose stack\n\
\x20\x20find N HEX                           each address at which these bytes begin\n\
\x20\x20strings N MIN                        the texts in memory of at least MIN bytes, 1 to 1,024\n\
\x20\x20bt N T                               the frames of thread T by frame pointers\n\
\x20\x20unwind N T                           the frames of thread T by call frame information\n\
\x20\x20lines N T                            the source lines of the frames of thread T\n\
\x20\x20frame N T I                          the registers of frame I of `unwind N T`\n\
\x20\x20builds N                             whether the stored executables are those that were mapped, by build ID\n\
\x20\x20used N                               which stored executable is used for each mapped file\n\
\x20\x20wants N                              the builds to store: those for which no executable is used\n\
\x20\x20symbol N ADDR                        the function at an address of an executable\n\
\x20\x20line N ADDR                          the source line at an address of an executable\n\
ADDR of dump and at may also be a register of the thread that dumped, or so far past it: sp, a0, sp+0x10";
