//! The view of a verified union: the enum of its variants' views.

use crate::at::At;
use crate::context::Context;
use crate::printer::Piece::{Documented, Each, Once};
use crate::printer::{Piece, Printer};
use crate::unions::MOST_TOGETHER;
use planus_schema::Union;

/// The most letters of the names in an arm on one line: twice the union's, and the member's.
const ARM_LETTERS: usize = 44;

const KIND: &str = "\
impl planus_views::UnionKind for $T {
    ghost schema = { verified_schema };

    ghost %union = { $a };
}

/// A verified one in a buffer.
#[derive(Clone, Copy, Debug)]
pub enum $TView<'a> {
";

const VIEW: &str = "    /// A tag that the schema doesn't have.
    $Z(u8),
}

impl<'a> planus_views::OfUnion for $TView<'a> {
    type %Kind = $T;
}

impl<'a> planus_views::UnionOf<'a> for $TView<'a> {
    ghost reads = { ReadsVariants $M_view_variants };

    ghost checked = { $M_checked };

    fn of_member(member: planus_views::Member<'a>) -> $TView<'a> {
";

const CODE: [Piece; 3] = [Once(KIND), Documented("", "    $n($J),\n"), Once(VIEW)];

const ARM: &str = "            $g => $TView::$n(member.$H),\n";

const WIDE_ARM: &str = "            $g => {
                let view = member.$H;
                $TView::$n(view)
            }
";

const UNKNOWN: &str = "            tag => $TView::$Z(tag),
        }
    }
}
";

const VIEW_FROM_FIRST: &str = "        view_from_0(member)
    }
}
";

const VIEW_FROM: &str = "
#[tactic(auto, unfolding(crate::specs::$T::view_from_$p_on))]
fn view_from_$p<'a>(member: planus_views::Member<'a>) -> $TView<'a>
    requires {~IsMember~verified_schema~$a~(member_tag member)~(member_start member)~\
     (member_bytes member)~(member_offset member) }
    ensures {~ReadsVariants~$M_tags.view_from_$p_on~(member_bytes member.entry)~\
     (member_start member.entry)~(member_tag member.entry)~(member_offset member.entry)~\
     ($M_checked result) }
{
    match member.tag() {
";

const ARM_FROM: &str = "        $g => $TView::$n(member.$H),\n";

const WIDE_ARM_FROM: &str = "        $g => {
            let view = member.$H;
            $TView::$n(view)
        }
";

const NEXT: &str = "        _ => view_from_$p(member),
    }
}
";

const UNKNOWN_FROM: &str = "        tag => $TView::$Z(tag),
    }
}
";

const ONE_OF: &str = "
abbrev pub $M_view_$g : $TView → Option $L
$M_view_$g ($M_view.$n view) = Some $F
$M_view_$g _ = None
";

const LISTED_VARIANTS: [Piece; 3] = [
    Once(
        "
-- the variants of a verified one, by their tags
abbrev pub $M_view_variants : List (UnionVariant $TView)
$M_view_variants =",
    ),
    Each("~$K $M_view_$g ∷", ""),
    Once("~[]\n"),
];

const VARIANTS_FROM: &str = "\
unfoldable pub view_from_$p_on : List (UnionVariant $TView)
view_from_$p_on =";

const ALL_VARIANTS: &str = "\
abbrev pub $M_view_variants : List (UnionVariant $TView)
$M_view_variants = view_from_0_on
";

const CHECKED: [Piece; 2] = [
    Once(
        "
-- what the checked reader returns
abbrev pub $M_checked : $TView → Checked $TView
$M_checked ($M_view.$Z tag) = unknown tag
",
    ),
    Each("$M_checked ($M_view.$n view) =~Ok ($M_view.$n view)\n", ""),
];

fn has_wide_arms(context: &Context<'_>, at: At) -> bool {
    let names = &context.names;
    let letters = names.type_name(at.index).len().saturating_mul(2);
    for place in 0..names.count(at.index) {
        if letters.saturating_add(names.member(at.index, place).len()) > ARM_LETTERS {
            return true;
        }
    }
    false
}

/// Whether a union has a function that verifies it: else its variants are more than the checker takes
/// in one.
pub(crate) fn passes_by_itself(one: &Union) -> bool {
    one.members.len() <= MOST_TOGETHER
}

/// Prints the view of a verified union.
pub(crate) fn print_verified_union<'a>(
    context: &'a Context<'a>,
    at: At,
    one: &Union,
) -> Printer<'a> {
    let mut printer = Printer::new(context);
    let wide = has_wide_arms(context, at);
    printer.put_pieces(&CODE, at);
    if one.members.len() > MOST_TOGETHER {
        let arm = if wide { WIDE_ARM_FROM } else { ARM_FROM };
        printer.put(VIEW_FROM_FIRST, at);
        printer.put_functions(VIEW_FROM, arm, NEXT, at);
        printer.put(UNKNOWN_FROM, at);
    } else {
        printer.put_str("        match member.tag() {\n");
        printer.put_each(if wide { WIDE_ARM } else { ARM }, "", at);
        printer.put(UNKNOWN, at);
    }
    if passes_by_itself(one) {
        printer.put_pass_member(at, one);
    }
    printer
}

impl<'a> Printer<'a> {
    /// Adds the definitions of a verified union.
    pub(crate) fn put_verified_variants(&mut self, at: At, one: &Union) {
        self.put_each(ONE_OF, "", at);
        if one.members.len() > MOST_TOGETHER {
            let entry = "~$K $M_view_$g ∷";
            self.put_str("\n-- the variants of a verified one, by their tags, from some on\n");
            self.put_lists(VARIANTS_FROM, entry, "~view_from_$p_on", at);
            self.put(ALL_VARIANTS, at);
        } else {
            self.put_pieces(&LISTED_VARIANTS, at);
        }
        self.put_pieces(&CHECKED, at);
    }
}
