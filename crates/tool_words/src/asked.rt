/// What the words of a command line ask for. The words of a command are as they were given: whether a number is one, which
/// words mean no file, and whether two of them are equal is not asked here.
#[derive(Drop)]
pub enum Asked<'a> {
    Rewrite(RewriteWords<'a>),
    Verify(VerifyWords<'a>),
    Run(RunWords<'a>),
    Compare(CompareWords<'a>),
    Demo(DemoWords<'a>),
    Harden(HardenWords<'a>),
    Link(LinkWords<'a>),
    CompareLink(CompareLinkWords<'a>),
}

/// The words of `rewrite`.
#[derive(Clone, Copy)]
pub struct RewriteWords<'a> {
    /// The object.
    pub object: &'a str,
    /// The symbol at which the program begins.
    pub entry: &'a str,
    /// The policy.
    pub policy: &'a str,
    /// The image.
    pub image: &'a str,
    /// The graph.
    pub graph: &'a str,
    /// The map.
    pub map: &'a str,
}

/// The words of `verify`.
#[derive(Clone, Copy)]
pub struct VerifyWords<'a> {
    /// The image.
    pub image: &'a str,
    /// The graph.
    pub graph: &'a str,
}

/// The words of `run`.
#[derive(Clone, Copy)]
pub struct RunWords<'a> {
    /// The image.
    pub image: &'a str,
    /// The graph.
    pub graph: &'a str,
    /// The script of turns and changes.
    pub script: &'a str,
    /// The program's input.
    pub input: &'a str,
    /// How many steps are taken at most.
    pub steps: &'a str,
}

/// The words of `compare`.
#[derive(Clone, Copy)]
pub struct CompareWords<'a> {
    /// The object.
    pub object: &'a str,
    /// The symbol at which the program begins.
    pub entry: &'a str,
    /// The policy.
    pub policy: &'a str,
    /// The image.
    pub image: &'a str,
    /// The map.
    pub map: &'a str,
    /// The program's input.
    pub input: &'a str,
    /// How many steps are taken at most.
    pub steps: &'a str,
}

/// The word of `demo`.
#[derive(Clone, Copy)]
pub struct DemoWords<'a> {
    /// The number that an object is made from.
    pub number: &'a str,
}

/// The words of `harden`: a form, and then those of `rewrite`.
#[derive(Clone, Copy)]
pub struct HardenWords<'a> {
    /// The form of what is made.
    pub form: &'a str,
    /// The words after it.
    pub rewrite: RewriteWords<'a>,
}

/// The words of `link`.
#[derive(Drop)]
pub struct LinkWords<'a> {
    /// The form of what is made.
    pub form: &'a str,
    /// The symbol at which the program begins.
    pub entry: &'a str,
    /// The policy.
    pub policy: &'a str,
    /// The image.
    pub image: &'a str,
    /// The graph.
    pub graph: &'a str,
    /// The map.
    pub map: &'a str,
    /// The objects, in their order.
    pub objects: Vec<&'a str>,
}

/// The words of `compare-link`.
#[derive(Drop)]
pub struct CompareLinkWords<'a> {
    /// The symbol at which the program begins.
    pub entry: &'a str,
    /// The policy.
    pub policy: &'a str,
    /// The image.
    pub image: &'a str,
    /// The map.
    pub map: &'a str,
    /// The program's input.
    pub input: &'a str,
    /// How many steps are taken at most.
    pub steps: &'a str,
    /// The objects, in their order.
    pub objects: Vec<&'a str>,
}
