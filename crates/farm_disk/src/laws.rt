//! Laws of the definitions.
ghost use Rattle.farm_disk.specs.Model.{ModelIsImages, ImagesAreModel, CallsKeepSound, SomeImage};
ghost use Rattle.farm_disk.specs.Certain.{CertainIsAllowed, AllowedIsCertain};

/// The images of a crash are what the disk model allows.
pub fn images_of_the_model()
    ensures each { ModelIsImages }
    ensures no_other { ImagesAreModel }
{}

/// What a read gives is one of the images, at any time.
pub fn reads_an_image()
    ensures { CallsKeepSound }
{}

/// A crash always leaves something: after each log of steps there is an image.
pub fn leaves_an_image()
    ensures { SomeImage }
{}

/// The certain bytes are those of the last sync that no write and no cut has touched since.
pub fn certain_bytes()
    ensures certain { CertainIsAllowed }
    ensures no_other { AllowedIsCertain }
{}
