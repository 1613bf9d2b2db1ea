//! The problems of an update error by their numbers (X.511, section 12.9).

/// namingViolation.
pub const NAMING_VIOLATION: u8 = 1;

/// objectClassViolation.
pub const OBJECT_CLASS_VIOLATION: u8 = 2;

/// notAllowedOnNonLeaf.
pub const NOT_ALLOWED_ON_NON_LEAF: u8 = 3;

/// notAllowedOnRDN.
pub const NOT_ALLOWED_ON_RDN: u8 = 4;

/// entryAlreadyExists.
pub const ENTRY_ALREADY_EXISTS: u8 = 5;

/// affectsMultipleDSAs.
pub const AFFECTS_MULTIPLE_DSAS: u8 = 6;

/// objectClassModificationProhibited.
pub const OBJECT_CLASS_MODIFICATION_PROHIBITED: u8 = 7;
