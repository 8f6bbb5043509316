//! Iterators over what extensions have, extensions in order.
ghost use Rattle.std.specs.Prelude.{◌≡◌};

use crate::extension::Extension;
use crate::function::ExtensionFunction;
use cedar_names::Name;

/// The names of extensions, in order.
#[derive(Clone, Copy)]
pub struct ExtNames<'a> {
    extensions: &'a [Extension],
}

impl<'a> ExtNames<'a> {
    ghost use Rattle.std.specs.Prelude.{map};
    ghost use Rattle.cedar_extensions.specs.Extension.{name_of};
    ghost use Rattle.cedar_extensions.specs.Iterators.{names_left};

    // Of these extensions.
    pub(crate) fn new(extensions: &'a [Extension]) -> ExtNames<'a>
        ensures { names_left result ≡ map name_of extensions.now }
    {
        ExtNames { extensions }
    }
}

impl<'a> Iterator for ExtNames<'a> {
    ghost use Rattle.std.specs.Iterator.{YieldsFirstRef, item_count};
    ghost use Rattle.cedar_extensions.specs.Iterators.{names_left};

    type Item = &'a Name;

    ghost next_gives = { YieldsFirstRef names_left };

    ghost remaining = { item_count names_left };

    fn next(&mut self) -> Option<&'a Name> {
        match self.extensions.split_first() {
            Some((extension, others)) => {
                self.extensions = others;
                Some(extension.name())
            }
            None => None,
        }
    }
}

// Functions, and then all functions of extensions.
#[derive(Clone, Copy)]
pub(crate) struct Functions<'a> {
    functions: &'a [ExtensionFunction],
    extensions: &'a [Extension],
}

impl<'a> Functions<'a> {
    ghost use Rattle.std.specs.Prelude.{◌++◌};
    ghost use Rattle.cedar_extensions.specs.Extension.{all_functions};
    ghost use Rattle.cedar_extensions.specs.Iterators.{functions_left};

    pub(crate) fn new(
        functions: &'a [ExtensionFunction],
        extensions: &'a [Extension],
    ) -> Functions<'a>
        ensures { functions_left result ≡ functions.now ++ all_functions extensions.now }
    {
        Functions {
            functions,
            extensions,
        }
    }
}

impl<'a> Iterator for Functions<'a> {
    ghost use Rattle.std.specs.Iterator.{YieldsFirstRef, item_count};
    ghost use Rattle.cedar_extensions.specs.Iterators.{functions_left};

    type Item = &'a ExtensionFunction;

    ghost next_gives = { YieldsFirstRef functions_left };

    ghost remaining = { item_count functions_left };

    fn next(&mut self) -> Option<&'a ExtensionFunction> {
        'extensions: loop {
            if let Some((function, others)) = self.functions.split_first() {
                self.functions = others;
                return Some(function);
            }
            match self.extensions.split_first() {
                Some((extension, others)) => {
                    self.functions = extension.funcs();
                    self.extensions = others;
                }
                None => return None,
            }
        }
    }
}

/// The extension types that functions answer values of: one item a function that does, extensions in order.
#[derive(Clone, Copy)]
pub struct ExtTypes<'a> {
    functions: Functions<'a>,
}

impl<'a> ExtTypes<'a> {
    ghost use Rattle.cedar_extensions.specs.Functions.{answered_types};
    ghost use Rattle.cedar_extensions.specs.Extension.{all_functions};
    ghost use Rattle.cedar_extensions.specs.Iterators.{types_left};

    // Of all functions of these extensions.
    pub(crate) fn new(extensions: &'a [Extension]) -> ExtTypes<'a>
        ensures { types_left result ≡ answered_types (all_functions extensions.now) }
    {
        ExtTypes {
            functions: Functions::new(&[], extensions),
        }
    }

    // Of these functions.
    pub(crate) fn of_functions(functions: &'a [ExtensionFunction]) -> ExtTypes<'a>
        ensures { types_left result ≡ answered_types functions.now }
    {
        ExtTypes {
            functions: Functions::new(functions, &[]),
        }
    }
}

impl<'a> Iterator for ExtTypes<'a> {
    ghost use Rattle.std.specs.Iterator.{YieldsFirstRef, item_count};
    ghost use Rattle.cedar_extensions.specs.Iterators.{types_left};

    type Item = &'a Name;

    ghost next_gives = { YieldsFirstRef types_left };

    ghost remaining = { item_count types_left };

    fn next(&mut self) -> Option<&'a Name> {
        'functions: while let Some(function) = self.functions.next() {
            if let Some(name) = function.ext_type() {
                return Some(name);
            }
        }
        None
    }
}

/// The types whose values `<` and `<=` compare, extensions in order.
#[derive(Clone, Copy)]
pub struct OverloadingTypes<'a> {
    names: &'a [Name],
    extensions: &'a [Extension],
}

impl<'a> OverloadingTypes<'a> {
    ghost use Rattle.cedar_extensions.specs.Extension.{all_overloading_types};
    ghost use Rattle.cedar_extensions.specs.Iterators.{overloading_left};

    // Of all these extensions.
    pub(crate) fn new(extensions: &'a [Extension]) -> OverloadingTypes<'a>
        ensures { overloading_left result ≡ all_overloading_types extensions.now }
    {
        OverloadingTypes {
            names: &[],
            extensions,
        }
    }

    // Of one extension.
    pub(crate) fn of_names(names: &'a [Name]) -> OverloadingTypes<'a>
        ensures { overloading_left result ≡ names.now }
    {
        OverloadingTypes {
            names,
            extensions: &[],
        }
    }
}

impl<'a> Iterator for OverloadingTypes<'a> {
    ghost use Rattle.std.specs.Iterator.{YieldsFirstRef, item_count};
    ghost use Rattle.cedar_extensions.specs.Iterators.{overloading_left};

    type Item = &'a Name;

    ghost next_gives = { YieldsFirstRef overloading_left };

    ghost remaining = { item_count overloading_left };

    fn next(&mut self) -> Option<&'a Name> {
        'extensions: loop {
            if let Some((name, others)) = self.names.split_first() {
                self.names = others;
                return Some(name);
            }
            match self.extensions.split_first() {
                Some((extension, others)) => {
                    self.names = extension.overloaded();
                    self.extensions = others;
                }
                None => return None,
            }
        }
    }
}

// The names of functions, each as a key, extensions in order.
#[derive(Clone, Copy)]
pub(crate) struct FunctionNames<'a> {
    functions: Functions<'a>,
}

impl<'a> FunctionNames<'a> {
    ghost use Rattle.cedar_extensions.specs.Functions.{function_names};
    ghost use Rattle.cedar_extensions.specs.Extension.{all_functions};
    ghost use Rattle.cedar_extensions.specs.Iterators.{function_names_left};

    // Of all functions of these extensions.
    pub(crate) fn new(extensions: &'a [Extension]) -> FunctionNames<'a>
        ensures { function_names_left result ≡ function_names (all_functions extensions.now) }
    {
        FunctionNames {
            functions: Functions::new(&[], extensions),
        }
    }
}

impl<'a> Iterator for FunctionNames<'a> {
    ghost use Rattle.std.specs.Iterator.{YieldsFirstBy, item_count};
    ghost use Rattle.cedar_extensions.specs.Iterators.{key_name, function_names_left};

    type Item = (&'a Name, ());

    ghost next_gives = { YieldsFirstBy key_name function_names_left };

    ghost remaining = { item_count function_names_left };

    fn next(&mut self) -> Option<(&'a Name, ())> {
        match self.functions.next() {
            Some(function) => Some((function.name(), ())),
            None => None,
        }
    }
}

// The extension types that functions make values of, each of exactly one text, each as a key, extensions in order.
#[derive(Clone, Copy)]
pub(crate) struct ConstructedTypes<'a> {
    functions: Functions<'a>,
}

impl<'a> ConstructedTypes<'a> {
    ghost use Rattle.cedar_extensions.specs.Functions.{constructed_types};
    ghost use Rattle.cedar_extensions.specs.Extension.{all_functions};
    ghost use Rattle.cedar_extensions.specs.Iterators.{constructed_left};

    // Of all functions of these extensions.
    pub(crate) fn new(extensions: &'a [Extension]) -> ConstructedTypes<'a>
        ensures { constructed_left result ≡ constructed_types (all_functions extensions.now) }
    {
        ConstructedTypes {
            functions: Functions::new(&[], extensions),
        }
    }
}

impl<'a> Iterator for ConstructedTypes<'a> {
    ghost use Rattle.std.specs.Iterator.{YieldsFirstBy, item_count};
    ghost use Rattle.cedar_extensions.specs.Iterators.{key_name, constructed_left};

    type Item = (&'a Name, ());

    ghost next_gives = { YieldsFirstBy key_name constructed_left };

    ghost remaining = { item_count constructed_left };

    fn next(&mut self) -> Option<(&'a Name, ())> {
        'functions: while let Some(function) = self.functions.next() {
            if let Some(name) = function.constructed_type() {
                return Some((name, ()));
            }
        }
        None
    }
}
