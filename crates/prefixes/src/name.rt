// The column of interface names and how they begin.
use crate::column::PrefixColumn;
use fields::patterns::name::NamePattern;

pub type NameColumn = PrefixColumn<NamePattern>;
