//! What the program says of itself.

use zio_program::About;

/// Its name, and what `--help` tells.
pub const ABOUT: About<'static> = About {
    name: "zio_durable",
    purpose: "Runs a script of block requests on image files, and syncs them after each round.",
    usage: USAGE,
    rest: REST,
};

pub const USAGE: &str = "zio_durable IMAGE.. < SCRIPT";

const REST: &str = "\
It reads a script from standard input, runs it as `zio_serial run IMAGE..` does,
and writes the report to standard output. After each round it brings every image
to its device, and only then writes what the round came to. There are 1 to 16
images, files of 64 KiB to 256 MiB that are changed in place; leaf 0 of the
script is the first of them. The blocks outlast a crash, but no label is kept: no
later run finds them by their names.

Exit status:
  0  the script was run to its end, and all its requests completed
  1  the words aren't 1 to 16 images
  2  the script isn't accepted; `script LINE WHY` tells where and why
  3  an image couldn't be opened or isn't of 64 KiB to 256 MiB, or a top names a
     leaf without an image; `images LEAF` tells which
  4  a request was suspended under failmode panic, which ended the run
  5  standard input couldn't be read
  6  standard output couldn't be written
  7  an image couldn't be read, written or synced
  8  memory was wanted and not given
  9  the script was run to its end, and a request is suspended or held

Of each status but 0 a line on standard error tells more.";
