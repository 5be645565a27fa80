ghost use Rattle.layout.specs.Forms.{Decodes};

/// What an axiom is about.
#[derive(Clone, Copy, PartialEq, Eq, Debug)]
pub enum Form {
    SubRole,
    SubInverse,
    Transitive,
    Conjunction,
    Nominal,
    Filler,
    AtMostOne,
    Exists,
    Range,
    HasValue,
    OpenConcept,
    OpenRole,
}

/// A form code that is not 1 to 12.
#[derive(Clone, Copy, PartialEq, Eq, Debug)]
pub struct UnknownForm;

impl TryFrom<u16> for Form {
    type Error = UnknownForm;

    ghost try_from_gives = { Decodes };

    fn try_from(code: u16) -> Result<Form, UnknownForm> {
        match code {
            1 => Ok(Form::SubRole),
            2 => Ok(Form::SubInverse),
            3 => Ok(Form::Transitive),
            4 => Ok(Form::Conjunction),
            5 => Ok(Form::Nominal),
            6 => Ok(Form::Filler),
            7 => Ok(Form::AtMostOne),
            8 => Ok(Form::Exists),
            9 => Ok(Form::Range),
            10 => Ok(Form::HasValue),
            11 => Ok(Form::OpenConcept),
            12 => Ok(Form::OpenRole),
            _ => Err(UnknownForm),
        }
    }
}
