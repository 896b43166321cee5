// The four tables that are lent: a formula's text, its token rows, the shape rows and the state rows.
#[derive(Clone, Copy)]
pub struct Tables<'a> {
    pub text: &'a [u8],
    pub tokens: &'a [u32],
    pub shapes: &'a [u32],
    pub states: &'a [u32],
}
