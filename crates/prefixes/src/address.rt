// The column of address prefixes.
use crate::column::PrefixColumn;
use fields::patterns::address::AddressPrefix;

pub type AddressColumn = PrefixColumn<AddressPrefix>;
