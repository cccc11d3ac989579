//! The beginning and the end of a picture, and of a page with a picture.

use crate::style::STYLE;
use Piece::{Fixed, Number};
use zio_markup::{Markup, Piece};
use zio_types::NoMemory;

pub(crate) fn begin_picture(out: &mut Markup, width: u32, height: u32) -> Result<(), NoMemory> {
    out.put(&[
        Fixed("<svg xmlns=\"http://www.w3.org/2000/svg\" role=\"img\" width=\""),
        Number(width),
        Fixed("\" height=\""),
        Number(height),
        Fixed("\" viewBox=\"0 0 "),
        Number(width),
        Fixed(" "),
        Number(height),
        Fixed("\">\n<title>A run, round by round</title>\n"),
        Fixed(STYLE),
        Fixed("<rect class=\"paper\" width=\"100%\" height=\"100%\"/>\n"),
    ])
}

pub(crate) fn end_picture(out: &mut Markup) -> Result<(), NoMemory> {
    out.put(&[Fixed("</svg>\n")])
}

pub(crate) fn begin_page(out: &mut Markup) -> Result<(), NoMemory> {
    out.put(&[Fixed(
        "<!DOCTYPE html>\n<html lang=\"en\" xmlns=\"http://www.w3.org/1999/xhtml\">\n<head><meta charset=\"utf-8\"/>\
<title>A run, round by round</title></head>\n<body>\n",
    )])
}

pub(crate) fn end_page(out: &mut Markup) -> Result<(), NoMemory> {
    out.put(&[Fixed("</body>\n</html>\n")])
}
