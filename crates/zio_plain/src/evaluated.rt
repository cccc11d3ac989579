//! A request that finished by the definitions.

ghost use Rattle.std.specs.Prelude.{◌≡◌};

use std::marker::Model;
use zio_course::RequestEnd;
use zio_types::{Errno, ReqNo};

/// A request that finished, as the definitions evaluate it. Contracts see it as what is told of it.
#[derive(Debug, Drop)]
pub struct Evaluated {
    end: RequestEnd,
}

impl Model for Evaluated {
    ghost use Rattle.zio_course.specs.declared.runner.RequestEnd.{RequestEnd};

    ghost Value = { RequestEnd };

    ghost view = { λ e. e.end };
}

impl Evaluated {
    /// Of which this is told.
    pub(crate) fn new(end: RequestEnd) -> Evaluated
        ensures { result ≡ end }
    {
        Evaluated { end }
    }

    pub(crate) fn request(&self) -> ReqNo
        ensures { result ≡ self.now.request }
    {
        self.end.request
    }

    pub(crate) fn error(&self) -> Option<Errno>
        ensures { result ≡ self.now.error }
    {
        self.end.error
    }

    /// What is told of it.
    pub(crate) fn into_end(self) -> RequestEnd
        ensures { result ≡ self }
    {
        self.end
    }
}
