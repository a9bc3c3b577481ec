ghost use Rattle.std.specs.Prelude.{◌≡◌, ◌+◌, ◌≤◌, ◌<◌, ◌^◌};
ghost use Rattle.rv_image.specs.Form.{form_name, form_named, form_of, graph_version, image_version, profile_for};
ghost use Rattle.rv_image.specs.MemoryMap.{CODE_START, profile_with};

use crate::version::{GraphVersion, ImageVersion, Versions};

/// The form in which a program is hardened. What is asked of a form is a number or a value of it.
#[derive(Clone, Copy, Debug, PartialEq, Eq)]
pub enum Form {
    /// For one hart: images and graphs of version 1.
    Plain,
    /// For one to eight harts: images of version 2, and graphs of version 1.
    Harts,
    /// For one hart, calls and jumps with labels of their own: images of version 1, and graphs of version 2.
    Split,
    /// For one to eight harts, calls and jumps with labels of their own: images and graphs of version 2.
    HartsSplit,
    /// For one hart, where callees save sites and a register masks stores: images of version 1, and graphs of version 3.
    Lean,
    /// For one to eight harts, where callees save sites and a register masks stores: images of version 2, and graphs of version 3.
    HartsLean,
}

impl Form {
    /// The version of the images of this form.
    pub fn image_version(self) -> ImageVersion
        ensures { result ≡ image_version self }
    {
        match self {
            Form::Plain | Form::Split | Form::Lean => ImageVersion::OneHart,
            Form::Harts | Form::HartsSplit | Form::HartsLean => ImageVersion::EightHarts,
        }
    }

    /// The version of the graphs of this form. The two versions tell the form.
    pub fn graph_version(self) -> GraphVersion
        ensures value { result ≡ graph_version self }
        ensures told { form_of (image_version self) result ≡ self }
    {
        match self {
            Form::Plain | Form::Harts => GraphVersion::OneLabel,
            Form::Split | Form::HartsSplit => GraphVersion::TwoLabels,
            Form::Lean | Form::HartsLean => GraphVersion::CalleeSaves,
        }
    }

    /// The versions of its images and of its graphs.
    pub fn versions(self) -> Versions
        ensures { profile_with result ≡ profile_for self }
    {
        Versions {
            image: self.image_version(),
            graph: self.graph_version(),
        }
    }

    /// The address of the first unit in images of this form.
    pub fn units_from(self) -> u64
        ensures value { result ≡ (profile_for self).units_from }
        ensures low { CODE_START + 44 ≤ result }
        ensures high { result ≤ CODE_START + 80 }
    {
        self.versions().units_from()
    }

    /// The address to which a program returns in images of this form.
    pub fn closing(self) -> u64
        ensures value { result ≡ (profile_for self).closing }
        ensures near { result < 2 ^ 32 }
    {
        self.units_from() - 8
    }

    /// The word by which it is called in command lines and in the first lines of maps.
    pub fn name(self) -> &'static str
        ensures { result.now ≡ form_name self }
    {
        match self {
            Form::Plain => "plain",
            Form::Harts => "harts",
            Form::Split => "split",
            Form::HartsSplit => "harts-split",
            Form::Lean => "lean",
            Form::HartsLean => "harts-lean",
        }
    }

    /// The form of this name.
    pub fn named(name: &str) -> Option<Form>
        ensures { result ≡ form_named name.now }
    {
        match name {
            "plain" => Some(Form::Plain),
            "harts" => Some(Form::Harts),
            "split" => Some(Form::Split),
            "harts-split" => Some(Form::HartsSplit),
            "lean" => Some(Form::Lean),
            "harts-lean" => Some(Form::HartsLean),
            _ => None,
        }
    }
}
