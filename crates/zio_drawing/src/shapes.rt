//! Rectangles, lines, texts, and titles that show on hover.

use crate::frame::{Area, Point};
use Piece::{Fixed, Number};
use zio_markup::{Markup, Piece};
use zio_types::NoMemory;

/// Shapes in the text of a picture.
pub(crate) trait Shapes {
    fn area(&mut self, class: &'static str, area: Area) -> Result<(), NoMemory>;

    fn line(&mut self, class: &'static str, from: Point, to: Point) -> Result<(), NoMemory>;

    /// An arrow's head that points to the right, and ends at the point.
    fn arrow(&mut self, at: Point) -> Result<(), NoMemory>;

    fn begin_text(&mut self, class: &'static str, at: Point) -> Result<(), NoMemory>;

    fn end_text(&mut self) -> Result<(), NoMemory>;

    fn text(
        &mut self,
        class: &'static str,
        at: Point,
        pieces: &[Piece<'_>],
    ) -> Result<(), NoMemory>;

    /// Begins a group whose title comes first.
    fn begin_title(&mut self) -> Result<(), NoMemory>;

    fn end_title(&mut self) -> Result<(), NoMemory>;

    fn end_titled(&mut self) -> Result<(), NoMemory>;
}

impl Shapes for Markup {
    fn area(&mut self, class: &'static str, area: Area) -> Result<(), NoMemory> {
        self.put(&[
            Fixed("<rect class=\""),
            Fixed(class),
            Fixed("\" x=\""),
            Number(area.x),
            Fixed("\" y=\""),
            Number(area.y),
            Fixed("\" width=\""),
            Number(area.width),
            Fixed("\" height=\""),
            Number(area.height),
            Fixed("\"/>\n"),
        ])
    }

    fn line(&mut self, class: &'static str, from: Point, to: Point) -> Result<(), NoMemory> {
        self.put(&[
            Fixed("<path class=\""),
            Fixed(class),
            Fixed("\" d=\"M"),
            Number(from.x),
            Fixed(" "),
            Number(from.y),
            Fixed("L"),
            Number(to.x),
            Fixed(" "),
            Number(to.y),
            Fixed("\"/>\n"),
        ])
    }

    fn arrow(&mut self, at: Point) -> Result<(), NoMemory> {
        self.put(&[
            Fixed("<path class=\"arrow\" d=\"M"),
            Number(at.x),
            Fixed(" "),
            Number(at.y),
            Fixed("l-8 -4v8z\"/>\n"),
        ])
    }

    fn begin_text(&mut self, class: &'static str, at: Point) -> Result<(), NoMemory> {
        self.put(&[
            Fixed("<text class=\""),
            Fixed(class),
            Fixed("\" x=\""),
            Number(at.x),
            Fixed("\" y=\""),
            Number(at.y),
            Fixed("\">"),
        ])
    }

    fn end_text(&mut self) -> Result<(), NoMemory> {
        self.put(&[Fixed("</text>\n")])
    }

    fn text(
        &mut self,
        class: &'static str,
        at: Point,
        pieces: &[Piece<'_>],
    ) -> Result<(), NoMemory> {
        self.begin_text(class, at)?;
        self.put(pieces)?;
        self.end_text()
    }

    fn begin_title(&mut self) -> Result<(), NoMemory> {
        self.put(&[Fixed("<g><title>")])
    }

    fn end_title(&mut self) -> Result<(), NoMemory> {
        self.put(&[Fixed("</title>\n")])
    }

    fn end_titled(&mut self) -> Result<(), NoMemory> {
        self.put(&[Fixed("</g>\n")])
    }
}
