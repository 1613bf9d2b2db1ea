//! The problems of an attribute error by their numbers (X.511, section 12.4).

/// noSuchAttributeOrValue.
pub const NO_SUCH_ATTRIBUTE_OR_VALUE: u8 = 1;

/// invalidAttributeSyntax.
pub const INVALID_ATTRIBUTE_SYNTAX: u8 = 2;

/// undefinedAttributeType.
pub const UNDEFINED_ATTRIBUTE_TYPE: u8 = 3;

/// constraintViolation.
pub const CONSTRAINT_VIOLATION: u8 = 5;

/// attributeOrValueAlreadyExists.
pub const ATTRIBUTE_OR_VALUE_ALREADY_EXISTS: u8 = 6;
