//! Pages that note what they are asked.

use crate::{Pages, PlainMapping};

/// What the pages were asked.
#[derive(Clone, Copy, Debug, PartialEq, Eq)]
pub enum Question {
    /// For the page of this address.
    Page(u64),
    /// For the local word at this entry.
    Cell(u64),
}

/// Pages that note what they are asked, in the room that there is.
#[derive(Drop)]
pub struct NotedPages<'a> {
    pub mapping: PlainMapping<'a>,
    pub questions: Vec<Question>,
}

impl NotedPages<'_> {
    fn note(questions: &mut Vec<Question>, question: Question) {
        if questions.len() < questions.capacity() {
            questions.push_reserved(question);
        }
    }
}

impl Pages for NotedPages<'_> {
    ghost use Rattle.std.specs.Prelude.{None};

    type Origin = ();

    ghost view = { λ p. record { place = p.mapping.place; cells = p.mapping.cells.now; origin = record {}; asked = None } };

    fn page(&mut self, va: u64) -> Option<u64> {
        NotedPages::note(&mut self.questions, Question::Page(va));
        self.mapping.page(va)
    }

    fn cell(&mut self, entry: u64) -> u64 {
        NotedPages::note(&mut self.questions, Question::Cell(entry));
        self.mapping.cell(entry)
    }
}
