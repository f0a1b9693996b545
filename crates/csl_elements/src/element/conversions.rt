//! Conversions of each node to a [`LayoutRenderingElement`], and of each child of names to a
//! [`NamesChild`].

ghost use Rattle.std.specs.Prelude.{◌≡◌};
ghost use Rattle.csl_elements.specs.declared.element.LayoutRenderingElement.TheVariants as elements;
ghost use Rattle.csl_elements.specs.declared.element.NamesChild.TheVariants as of_names;

use crate::date::Date;
use crate::element::{Choose, Group, LayoutRenderingElement, Names, NamesChild, Substitute};
use crate::names::{EtAl, Name};
use crate::number::{Label, Number, VariablelessLabel};
use crate::text::Text;

impl From<Text> for LayoutRenderingElement {
    ghost from_gives = { λ text result. result ≡ elements.Text text };

    fn from(text: Text) -> LayoutRenderingElement {
        LayoutRenderingElement::Text(text)
    }
}

impl From<Number> for LayoutRenderingElement {
    ghost from_gives = { λ number result. result ≡ elements.Number number };

    fn from(number: Number) -> LayoutRenderingElement {
        LayoutRenderingElement::Number(number)
    }
}

impl From<Label> for LayoutRenderingElement {
    ghost from_gives = { λ label result. result ≡ elements.Label label };

    fn from(label: Label) -> LayoutRenderingElement {
        LayoutRenderingElement::Label(label)
    }
}

impl From<Date> for LayoutRenderingElement {
    ghost from_gives = { λ date result. result ≡ elements.Date date };

    fn from(date: Date) -> LayoutRenderingElement {
        LayoutRenderingElement::Date(date)
    }
}

impl From<Names> for LayoutRenderingElement {
    ghost from_gives = { λ names result. result ≡ elements.Names names };

    fn from(names: Names) -> LayoutRenderingElement {
        LayoutRenderingElement::Names(names)
    }
}

impl From<Choose> for LayoutRenderingElement {
    ghost from_gives = { λ choose result. result ≡ elements.Choose choose };

    fn from(choose: Choose) -> LayoutRenderingElement {
        LayoutRenderingElement::Choose(choose)
    }
}

impl From<Group> for LayoutRenderingElement {
    ghost from_gives = { λ group result. result ≡ elements.Group group };

    fn from(group: Group) -> LayoutRenderingElement {
        LayoutRenderingElement::Group(group)
    }
}

impl From<Name> for NamesChild {
    ghost from_gives = { λ name result. result ≡ of_names.Name name };

    fn from(name: Name) -> NamesChild {
        NamesChild::Name(name)
    }
}

impl From<EtAl> for NamesChild {
    ghost from_gives = { λ et_al result. result ≡ of_names.EtAl et_al };

    fn from(et_al: EtAl) -> NamesChild {
        NamesChild::EtAl(et_al)
    }
}

impl From<VariablelessLabel> for NamesChild {
    ghost from_gives = { λ label result. result ≡ of_names.Label label };

    fn from(label: VariablelessLabel) -> NamesChild {
        NamesChild::Label(label)
    }
}

impl From<Substitute> for NamesChild {
    ghost from_gives = { λ substitute result. result ≡ of_names.Substitute substitute };

    fn from(substitute: Substitute) -> NamesChild {
        NamesChild::Substitute(substitute)
    }
}
