//! What letters of templates stand for in a member of a union, by its type.

use planus_schema::Base;

fn of_table(letter: char) -> Option<&'static str> {
    match letter {
        'D' | 'G' => Some("table"),
        'R' => Some("$mRef<'a>"),
        'J' => Some("$mView<'a>"),
        'E' => Some("read_view(buffer, offset)?"),
        'K' => Some("table_variant $g"),
        'L' => Some("Table"),
        'e' => Some("view.0"),
        'F' => Some("(view_table view.0)"),
        'H' => Some("table::<$T, _>($g)"),
        'l' => Some("Table($B)"),
        _ => None,
    }
}

fn of_struct(letter: char) -> Option<&'static str> {
    match letter {
        'D' => Some("struct"),
        'G' => Some("value"),
        'R' | 'J' => Some("PlainRef<'a, $m>"),
        'E' => Some("read_plain_ref(buffer, offset)?"),
        'K' => Some("struct_variant $g $C"),
        'L' => Some("SliceWithStartOffset"),
        'e' | 'F' => Some("(plain_slice view)"),
        'H' => Some("plain::<$T, _>($g)"),
        'l' => Some("Struct($C)"),
        _ => None,
    }
}

fn of_text(letter: char) -> Option<&'static str> {
    match letter {
        'D' => Some("string"),
        'G' => Some("text"),
        'R' | 'J' => Some("&'a str"),
        'E' => Some("TableRead::from_buffer(buffer, offset)?"),
        'K' => Some("text_variant $g"),
        'L' => Some("(Bor (List ℕ))"),
        'e' | 'F' => Some("view"),
        'H' => Some("text::<$T>($g)"),
        'l' => Some("Text"),
        _ => None,
    }
}

/// Returns the template that a letter stands for in a member of this type, if it is one's.
pub(crate) fn member_template(letter: char, base: Base) -> Option<&'static str> {
    match base {
        Base::Table(_) => of_table(letter),
        Base::Struct(_) => of_struct(letter),
        _ => of_text(letter),
    }
}

/// Returns how many letters more the reading of a member takes than that of a table.
pub(crate) fn letters_more(base: Base) -> usize {
    match base {
        Base::Table(_) => 0,
        Base::Struct(_) => 5,
        _ => 13,
    }
}
