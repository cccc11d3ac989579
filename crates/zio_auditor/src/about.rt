//! What the program says of itself.

use zio_program::About;

/// Its name, and what `--help` tells.
pub const ABOUT: About<'static> = About {
    name: "zio_auditor",
    purpose: "Tells whether a run of a script of block requests is what the script means.",
    usage: USAGE,
    rest: REST,
};

pub const USAGE: &str = "zio_auditor SCRIPT REPORT BEFORE.. AFTER..";

const REST: &str = "\
SCRIPT is the script of a run, REPORT what the run printed with --journal, by
zio_serial or by whatever else ran it. BEFORE.. are the images before the run,
1 to 16, leaf 0 first, and AFTER.. as many after it, in the same order. A script
has at most 16 MiB, a report at most 64 MiB, an image 64 KiB to 16 MiB, and an
image after the run the size of that before it. All names differ. No file is
changed, though each is opened for reading and writing.

The answer on standard output is `yes` where the report is the text of a run of
this script over these images, the places that it tells were free to be taken,
its requests completed as the script lets them, and the run left the images
AFTER; else `no WHY` with the first why that applies.

Exit status:
  0   yes
  1   the words aren't SCRIPT, REPORT and two equal numbers of images
  3   a file can't be opened, or its size isn't fit; `files K` tells which, where
      SCRIPT is 0, REPORT 1 and the first image 2
  6   standard output can't be written
  7   a file can't be read
  8   memory was wanted and not given
  10  no; `no WHY` tells why

Of each status but 0 a line on standard error tells more: of status 10 in which
line, round or byte the why was first seen. The whys of status 10:
  1  the script isn't accepted, or a top names a leaf without an image
  2  a `take` or `order` line of the report isn't of its shape, has a number that
     is too large, or stands before every `round` line
  3  the `take` lines aren't lawful: a place wasn't free or is the wrong one, or
     lines are missing or too many
  4  the `order` lines aren't those of the requests that finished, each once and
     after its children
  5  the report isn't the text of the run, neither with --data nor without
  6  the images AFTER aren't those that the run leaves";
