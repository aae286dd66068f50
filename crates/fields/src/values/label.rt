// What the connection book says of a packet.
ghost use Rattle.std.specs.Prelude.{◌≡◌};
ghost use Rattle.fields.specs.Labels.{label_value};

// Each label has the weight that it has in a set of labels.
#[derive(Clone, Copy, PartialEq, Eq, Debug)]
pub enum Label {
    New = 1,
    Established = 2,
    Invalid = 4,
}

impl Label {
    // The weight of the label.
    pub fn value(&self) -> u8
        ensures result { result ≡ label_value self.now }
    {
        *self as u8
    }
}
