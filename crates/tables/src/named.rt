// A value with the text that names it.
#[derive(Drop)]
pub struct Named<V: Copy> {
    pub text: String,
    pub value: V,
}
