ghost use Rattle.std.specs.Prelude.{◌≡◌, length};

use crate::version::ImageVersion;
use std::marker::Model;

/// An image's code, which the machine has from address 40000000h on, its initialised data, which it
/// has from address 10000h on, and its version. Code and data are borrowed from the file.
#[derive(Drop)]
pub struct Image<'a> {
    version: ImageVersion,
    code: &'a [u8],
    init: &'a [u8],
}

impl<'a> Model for Image<'a> {
    ghost use Rattle.std.specs.Prelude.{length};
    ghost use Rattle.rv_image.specs.Image.{Contents, IsImageSize};

    ghost Value = { Contents };

    ghost view = { λ i. record { version = i.version; code = i.code.now; init = i.init.now } };

    ghost invariant = { λ i. IsImageSize (length i.code.now) (length i.init.now) };
}

impl<'a> Image<'a> {
    ghost use Rattle.rv_image.specs.Image.{IsImageSize};
    ghost use Rattle.rv_image.specs.declared.version.ImageVersion.TheVariants.{OneHart};

    /// The image of version 1, for one hart, of these bytes: 4 to 2^20 bytes of code, a multiple of 4,
    /// and at most 2^25 of data.
    pub fn of(code: &'a [u8], init: &'a [u8]) -> Image<'a>
        requires { IsImageSize (length code.now) (length init.now) }
        ensures version { result.version ≡ OneHart }
        ensures code { result.code ≡ code.now }
        ensures init { result.init ≡ init.now }
    {
        Image::of_version(ImageVersion::OneHart, code, init)
    }

    /// The image of these bytes, of version 1 for one hart or of version 2 for up to eight.
    pub fn of_version(version: ImageVersion, code: &'a [u8], init: &'a [u8]) -> Image<'a>
        requires { IsImageSize (length code.now) (length init.now) }
        ensures version { result.version ≡ version }
        ensures code { result.code ≡ code.now }
        ensures init { result.init ≡ init.now }
    {
        Image {
            version,
            code,
            init,
        }
    }

    /// Its version.
    pub fn version(&self) -> ImageVersion
        ensures { result ≡ self.now.version }
    {
        self.version
    }

    /// The bytes of the code.
    pub fn code(&self) -> &'a [u8]
        ensures value { result.now ≡ self.now.code }
        ensures size { IsImageSize (length self.now.code) (length self.now.init) }
    {
        self.code
    }

    /// The bytes of the initialised data.
    pub fn init(&self) -> &'a [u8]
        ensures { result.now ≡ self.now.init }
    {
        self.init
    }
}
