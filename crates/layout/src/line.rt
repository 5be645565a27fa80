/// A form code and the four words of its record.
#[derive(Clone, Copy, Default, PartialEq, Eq, Debug)]
pub struct Line {
    pub form: u16,
    pub p: u16,
    pub q: u16,
    pub r: u16,
    pub s: u16,
}
