/// How many lists, prefixes and skips may be begun at one place.
pub const ROWS: &str = r##"«()»⇒tree
«(a)(b)»⇒tree
«;c⏎(a)»⇒tree
«'a»⇒tree
«#;a»⇒tree
«((⇒TooDeep at 500
«(()⇒TooDeep at 500
«(a (b))»⇒TooDeep at 502
«([])»⇒TooDeep at 500
«(#())»⇒TooDeep at 500
«('a)»⇒TooDeep at 500
«(#;a)»⇒TooDeep at 500
«''a»⇒TooDeep at 500
«#;#;a b»⇒TooDeep at 501
«'#;a b»⇒TooDeep at 500
«(';c⇒TooDeep at 500
«(a . b (⇒BadDot at 506
«(a . b 'c)»⇒BadDot at 506
«(a . b #;⇒TooDeep at 506
«(a . b #;c)»⇒TooDeep at 506
«(.⇒BadDot at 500
«'.⇒BadDot at 500
«'(.⇒TooDeep at 500
«( a]⇒CloseMismatch at 502
«')⇒NothingAfter at 499
«(⇒OpenList at 499
«'⇒NothingAfter at 499"##;
