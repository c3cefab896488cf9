// `need` lines: which have the same key, and which kind of element they ask for.
#![tactic(auto)]

pub mod frame;
pub mod shape;

ghost use Rattle.std.specs.Prelude.{◌≡◌};
ghost use Rattle.semantics.specs.Types.{same_type_key};
ghost use Rattle.type_lines.specs.Needs.{need_at, NeedLine, kind_by};

use codes::element::Element;
use codes::need;
use lines::Sheet;

// Whether the `need` lines a and b, from 0, have the same key: a key is spelled in one way only, so their texts tell.
pub fn same_need(sheet: &Sheet, a: usize, b: usize) -> bool
    requires { (NeedLine sheet.now a) × (NeedLine sheet.now b) }
    ensures { result ≡ same_type_key (need_at sheet.now a) (need_at sheet.now b) }
{
    let l = sheet.line_at(a);
    words::same(l, sheet.line_at(b))
}

// The kind of element that form f needs.
pub fn kind_needed(f: usize) -> Option<Element>
    ensures { result ≡ kind_by f }
{
    match f {
        need::INT => Some(Element::Word),
        need::BYTE => Some(Element::Byte),
        need::BIG => Some(Element::Big),
        need::REAL => Some(Element::Real),
        need::STRING => Some(Element::Pointer),
        _ => None,
    }
}
