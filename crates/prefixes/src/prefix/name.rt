// Name patterns: a whole interface name, or how one begins.
ghost use Rattle.prefixes.specs.Spelling.{name_front, name_spelling};
ghost use Rattle.prefixes.specs.SpellingLaws.{name_meets};

use super::Prefix;
use crate::symbols::Symbols;
use fields::condition::Test;
use fields::patterns::name::NamePattern;
use fields::values::name::InterfaceName;

impl Prefix for NamePattern {
    ghost front = { name_front };

    ghost spelling = { name_spelling };

    ghost sound = { λ _. Unit {0} };

    ghost meets = { λ t v s. name_meets t v };

    fn front_symbols(&self) -> Symbols {
        match self {
            NamePattern::Whole(name) => Self::spell(*name),
            NamePattern::Beginning(beginning) => Symbols::of(beginning.as_slice()),
        }
    }

    fn spell(value: InterfaceName) -> Symbols {
        let mut symbols = Symbols::of(value.as_slice());
        symbols.push(0);
        symbols
    }

    fn number(_value: InterfaceName) -> Option<u32> {
        None
    }
}
