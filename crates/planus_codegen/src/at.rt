use planus_schema::Line;

/// What a template is filled with: a declaration, and one of its members.
#[derive(Clone, Copy)]
pub(crate) struct At {
    pub(crate) index: usize,
    pub(crate) place: usize,
}

impl At {
    pub(crate) fn declaration(index: usize) -> At {
        At { index, place: 0 }
    }

    pub(crate) fn line(line: &Line<'_>) -> At {
        At {
            index: line.table,
            place: line.place,
        }
    }

    pub(crate) fn member(self, place: usize) -> At {
        At {
            index: self.index,
            place,
        }
    }
}
