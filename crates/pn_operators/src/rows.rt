/// Hands the rows of the table to the macro `$use_rows`, after the values of the caller: a row has an
/// operator, the name of its element, the first kind of nets that has it, the least and the greatest
/// number of its arguments, where there is a greatest, and the rule by which the sorts of its
/// arguments give its own, with the family of sorts that the rule asks for, where it asks for one.
#[macro_export]
macro_rules! with_rows {
    ($use_rows:ident $(, $value:expr)*) => {
        $use_rows!($($value),*;
            DotConstant "dotconstant" Symmetric 0 (Some(0)) dot(),
            And "and" Symmetric 1 (None) to_truth(Truths),
            Or "or" Symmetric 1 (None) to_truth(Truths),
            Not "not" Symmetric 1 (Some(1)) to_truth(Truths),
            Imply "imply" Symmetric 2 (Some(2)) to_truth(Truths),
            Equality "equality" Symmetric 2 (Some(2)) alike(),
            Inequality "inequality" Symmetric 2 (Some(2)) alike(),
            Successor "successor" Symmetric 1 (Some(1)) round(),
            Predecessor "predecessor" Symmetric 1 (Some(1)) round(),
            LessThan "lessthan" Symmetric 2 (Some(2)) compared(Ordered),
            LessThanOrEqual "lessthanorequal" Symmetric 2 (Some(2)) compared(Ordered),
            GreaterThan "greaterthan" Symmetric 2 (Some(2)) compared(Ordered),
            GreaterThanOrEqual "greaterthanorequal" Symmetric 2 (Some(2)) compared(Ordered),
            Ltp "ltp" Symmetric 2 (Some(2)) compared(Elements),
            Gtp "gtp" Symmetric 2 (Some(2)) compared(Elements),
            Tuple "tuple" Symmetric 1 (None) tuple(),
            NumberOf "numberof" Symmetric 1 (Some(2)) counted(),
            Add "add" Symmetric 1 (None) same(Bags),
            Subtract "subtract" Symmetric 2 (None) same(Bags),
            ScalarProduct "scalarproduct" Symmetric 2 (Some(2)) scaled(),
            Addition "addition" HighLevel 2 (Some(2)) to_number(Integers),
            Subtraction "subtraction" HighLevel 2 (Some(2)) to_number(Integers),
            Mult "mult" HighLevel 2 (Some(2)) to_number(Integers),
            Div "div" HighLevel 2 (Some(2)) to_number(Integers),
            Mod "mod" HighLevel 2 (Some(2)) to_number(Integers),
            Lt "lt" HighLevel 2 (Some(2)) to_truth(Integers),
            Leq "leq" HighLevel 2 (Some(2)) to_truth(Integers),
            Gt "gt" HighLevel 2 (Some(2)) to_truth(Integers),
            Geq "geq" HighLevel 2 (Some(2)) to_truth(Integers),
            Cardinality "cardinality" HighLevel 1 (Some(1)) to_number(Bags),
            CardinalityOf "cardinalityof" HighLevel 2 (Some(2)) count(),
            Contains "contains" HighLevel 2 (Some(2)) compared(Bags),
            StringConcatenation "stringconcatenation" HighLevel 2 (Some(2)) to_text(Texts),
            StringLength "stringlength" HighLevel 1 (Some(1)) to_number(Texts),
            Lts "lts" HighLevel 2 (Some(2)) to_truth(Texts),
            Leqs "leqs" HighLevel 2 (Some(2)) to_truth(Texts),
            Gts "gts" HighLevel 2 (Some(2)) to_truth(Texts),
            Geqs "geqs" HighLevel 2 (Some(2)) to_truth(Texts),
            MakeList "makelist" HighLevel 1 (None) list(),
            ListConcatenation "listconcatenation" HighLevel 2 (Some(2)) same(Lists),
            ListLength "listlength" HighLevel 1 (Some(1)) to_number(Lists),
            MemberAtIndex "memberatindex" HighLevel 2 (Some(2)) item()
        )
    };
}
