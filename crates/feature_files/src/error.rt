ghost use Rattle.std.specs.Prelude.{◌≡◌};
ghost use Rattle.feature_files.specs.Fault.{error_of_text, error_of_json};

use cov_types::NoMemory;
use geo_json::{JsonError, JsonFault};
use geo_text::{TextError, TextFault};

/// Why a file is not read.
#[derive(Clone, Copy, Debug, PartialEq, Eq)]
pub enum FileFault {
    /// The file is text, by its name.
    Text(TextFault),
    /// The file is GeoJSON, by its name.
    Json(JsonFault),
}

/// What `read_features` answers in place of features.
#[derive(Debug, Drop)]
pub enum FileError {
    Fault(FileFault),
    NoMemory,
}

impl From<TextError> for FileError {
    ghost from_gives = { λ e error. error ≡ error_of_text e };

    fn from(e: TextError) -> FileError {
        match e {
            TextError::Fault(fault) => FileError::Fault(FileFault::Text(fault)),
            TextError::NoMemory => FileError::NoMemory,
        }
    }
}

impl From<JsonError> for FileError {
    ghost from_gives = { λ e error. error ≡ error_of_json e };

    fn from(e: JsonError) -> FileError {
        match e {
            JsonError::Fault(fault) => FileError::Fault(FileFault::Json(fault)),
            JsonError::NoMemory => FileError::NoMemory,
        }
    }
}

impl From<NoMemory> for FileError {
    ghost use Rattle.feature_files.specs.declared.error.FileError.TheVariants as errors;

    ghost from_gives = { λ _ e. e ≡ errors.NoMemory };

    fn from(_e: NoMemory) -> FileError {
        FileError::NoMemory
    }
}
