use cfi_rewrite::{Hardened, rewrite, rewrite_as};
use refusals::Refusal;
use rv_image::Form;
use rv_word::End;
use sample_hardened::Given;
use std::alloc::Global;

/// The forms.
pub(crate) static FORMS: [Form; 4] = [Form::Plain, Form::Harts, Form::Split, Form::HartsSplit];

/// What a file is hardened to in a form.
pub(crate) fn answer(
    alloc: Global,
    form: Form,
    file: &[u8],
    given: &Given,
) -> Result<Hardened, End<Refusal>> {
    match form {
        Form::Plain => rewrite(alloc, file, given.3, given.4),
        _ => rewrite_as(alloc, form, file, given.3, given.4),
    }
}
