//! A union: its kind and the enum of its views.

use crate::at::At;
use crate::context::Context;
use crate::members::letters_more;
use crate::printer::Piece::{Documented, Each, Once};
use crate::printer::{Piece, Printer};
use planus_schema::{Base, Declared, Union};

/// The most letters of the names in a table's arm on one line: the union's and the member's.
const ARM_LETTERS: usize = 42;

/// The most members of a union that one function reads.
pub(crate) const MOST_TOGETHER: usize = 20;

const KIND: &str = "\
pub struct $T;

impl $T {
";

const OF_OFFSET: &str = "    /// Returns the variant `$n` with the $D at this offset.
    pub fn from_$V(^$G: Offset<$m>^) -> UnionOffset<$T>
        ensures tag { result.tag ≡ $g }
        ensures offset { result.offset.distance ≡ $G.distance }
    {
        UnionOffset::new($g, $G.downcast())
    }
";

const VIEW: &str = "\
}

/// One in a buffer.
#[derive(Clone, Copy, Debug)]
pub enum $TRef<'a> {
";

const READ: &str = "\
}

impl<'a> TableReadUnion<'a> for $TRef<'a> {
    ghost reads = { ReadsVariants $M_variants };

    fn from_buffer(
        buffer: SliceWithStartOffset<'a>,
        tag: u8,
        offset: usize,
    ) -> Result<$TRef<'a>, ErrorKind> {
";

const ARM: &str = "            $g => Ok($TRef::$n($E)),\n";

const WIDE_ARM: &str = "            $g => {
                let view = $E;
                Ok($TRef::$n(view))
            }
";

const UNKNOWN: &str = "            _ => Err(ErrorKind::UnknownUnionTag { tag }),
        }
";

const READ_FROM: &str = "
#[tactic(auto, unfolding(crate::specs::$T::from_$p_on))]
fn from_$p<'a>(
    buffer: SliceWithStartOffset<'a>,
    tag: u8,
    offset: usize,
) -> Result<$TRef<'a>, ErrorKind>
    ensures {~ReadsVariants~$M_tags.from_$p_on~(slice_bytes buffer.entry)~\
     (slice_start buffer.entry)~tag~offset~result }
{
    match tag {
";

const ARM_FROM: &str = "        $g => Ok($TRef::$n($E)),\n";

const WIDE_ARM_FROM: &str = "        $g => {
            let view = $E;
            Ok($TRef::$n(view))
        }
";

const NEXT: &str = "        _ => from_$p(buffer, tag, offset),
    }
}
";

const UNKNOWN_FROM: &str = "        _ => Err(ErrorKind::UnknownUnionTag { tag }),
    }
}
";

const VECTOR: &str = "    }
}

impl<'a> VectorReadUnion<'a> for $TRef<'a> {
    ghost name = { codes \"[$T]\" };

    fn vector_name() -> &'static str
        ensures {~result.now ≡~codes \"[$T]\" }
    {
        \"[$T]\"
    }
}
";

const ONLY: &str = "\
abbrev pub $M_$g : $TRef → Option $L
$M_$g ($M_ref.$n view) = Some $e

";

const ONE_OF: &str = "\
abbrev pub $M_$g : $TRef → Option $L
$M_$g ($M_ref.$n view) = Some $e
$M_$g _ = None

";

const VARIANTS: &str = "\
-- by their tags
abbrev pub $M_variants : List (UnionVariant $TRef)
$M_variants =";

const VARIANTS_FROM: &str = "\
unfoldable pub from_$p_on : List (UnionVariant $TRef)
from_$p_on =";

const ALL_VARIANTS: &str = "\
abbrev pub $M_variants : List (UnionVariant $TRef)
$M_variants = from_0_on
";

fn has_wide_arms(context: &Context<'_>, at: At, one: &Union) -> bool {
    let names = &context.names;
    let letters = names.type_name(at.index).len();
    for (place, member) in one.members.iter().enumerate() {
        let name = names.member(at.index, place).len();
        let all = letters
            .saturating_add(name)
            .saturating_add(letters_more(member.base));
        if all > ARM_LETTERS {
            return true;
        }
    }
    false
}

const UNION_CODE: [Piece; 5] = [
    Once(KIND),
    Each(OF_OFFSET, "\n"),
    Once(VIEW),
    Documented("", "    $n($R),\n"),
    Once(READ),
];

/// Where one function reads all members.
const READ_TOGETHER: [Piece; 4] = [
    Once("        match tag {\n"),
    Each(ARM, ""),
    Once(UNKNOWN),
    Once(VECTOR),
];

const READ_TOGETHER_WIDE: [Piece; 4] = [
    Once("        match tag {\n"),
    Each(WIDE_ARM, ""),
    Once(UNKNOWN),
    Once(VECTOR),
];

const READ_FROM_FIRST: [Piece; 2] = [Once("        from_0(buffer, tag, offset)\n"), Once(VECTOR)];

fn has_tables_alone(one: &Union) -> bool {
    one.members
        .iter()
        .all(|member| matches!(member.base, Base::Table(_)))
}

pub(crate) fn print_union<'a>(
    context: &'a Context<'a>,
    at: At,
    declared: &Declared,
    one: &Union,
) -> Printer<'a> {
    let mut printer = Printer::new(context);
    let wide = has_wide_arms(context, at, one);
    let words = if has_tables_alone(one) {
        "/// The kind of one of some tables.\n"
    } else {
        "/// The kind of one of some types.\n"
    };
    printer.put_docs("", &declared.docs, words, at);
    printer.put_pieces(&UNION_CODE, at);
    if one.members.len() > MOST_TOGETHER {
        let arm = if wide { WIDE_ARM_FROM } else { ARM_FROM };
        printer.put_pieces(&READ_FROM_FIRST, at);
        printer.put_functions(READ_FROM, arm, NEXT, at);
        printer.put(UNKNOWN_FROM, at);
    } else if wide {
        printer.put_pieces(&READ_TOGETHER_WIDE, at);
    } else {
        printer.put_pieces(&READ_TOGETHER, at);
    }
    printer
}

const LISTED_VARIANTS: [Piece; 3] = [Once(VARIANTS), Each("~$K $M_$g ∷", ""), Once("~[]\n")];

pub(crate) fn print_variants<'a>(context: &'a Context<'a>, at: At, one: &Union) -> Printer<'a> {
    let mut printer = Printer::new(context);
    let several = one.members.len() > 1;
    printer.put_each(if several { ONE_OF } else { ONLY }, "", at);
    if one.members.len() > MOST_TOGETHER {
        printer.put("-- by their tags, from some on\n", at);
        printer.put_lists(VARIANTS_FROM, "~$K $M_$g ∷", "~from_$p_on", at);
        printer.put(ALL_VARIANTS, at);
    } else {
        printer.put_pieces(&LISTED_VARIANTS, at);
    }
    if context.verified {
        printer.put_verified_variants(at, one);
    }
    printer
}
