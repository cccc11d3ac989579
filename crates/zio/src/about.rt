//! What the program says of itself.

use zio_program::About;

/// Its name, and what `--help` tells.
pub const ABOUT: About<'static> = About {
    name: "zio",
    purpose: "Runs a script of block requests on image files, with workers.",
    usage: USAGE,
    rest: REST,
};

/// Its commands.
pub const USAGE: &str = "zio run [--workers N] [--journal] [--data] IMAGE.. < SCRIPT";

const REST: &str = "\
run IMAGE.. reads a script from standard input, runs it, and writes the report
to standard output. There are 1 to 16 images, files of 64 KiB to 256 MiB that
are changed in place; leaf 0 of the script is the first of them.
  --workers N   how many threads take checksums side by side: 1 to 16, and 4
                where that isn't said. With 1 blocks may lie elsewhere than with
                more, and where space is short other writes may find no place
  --journal     shows where each round's blocks were placed, and the order in
                which its requests completed
  --data        shows the bytes that each read gave

Exit status:
  0  the script was run to its end, and all its requests completed
  1  the words are no command
  2  the script isn't accepted; `script LINE WHY` tells where and why (below)
  3  an image couldn't be opened or isn't of 64 KiB to 256 MiB, or a top names a
     leaf without an image; `images LEAF` tells which
  4  a request was suspended under failmode panic, which ended the run
  5  standard input couldn't be read
  6  standard output couldn't be written
  7  an image couldn't be read or written
  8  memory was wanted and not given
  9  the script was run to its end, and a request is suspended or held

Of each status but 0 a line on standard error tells more. The whys of status 2:
  1  the line has no shape of the language
  2  a number isn't plain decimal, or hexadecimal digits are wrong
  3  a number, a size or the script is beyond its limit
  4  the line, or the end, comes out of order
  5  a name isn't 1 to 16 of a to z, 0 to 9 and _
  6  the batch names this block already
  7  canfail under a request that may not fail
  8  the parent isn't one, or the batch of a claim has another request
  9  a leaf is in two tops, a fault's leaf in none, or there is no top";
