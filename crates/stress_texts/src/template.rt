//! The texts of the two classes, but for their numbers.

/// `Stress` up to the number of the workers: eight elements of 1000, a count, the one lock, the sum of the elements, and the
/// beginning of main.
pub const BEGINS: &str = "class Stress
field 8 acc [I
field 8 count I
field 24 lock Ljava/lang/Object;
method 8 <clinit> ()V stack 3 locals 1
new java/lang/Object
dup
invokespecial java/lang/Object <init> ()V
putstatic Stress lock Ljava/lang/Object;
bipush 8
newarray int
putstatic Stress acc [I
iconst_0
istore_0
filling:
frame int /
iload_0
bipush 8
if_icmpge filled
getstatic Stress acc [I
iload_0
sipush 1000
iastore
iinc 0 1
goto filling
filled:
frame int /
return
end
method 8 sum ()I stack 3 locals 2
iconst_0
istore_0
iconst_0
istore_1
adding:
frame int int /
iload_1
bipush 8
if_icmpge added
iload_0
getstatic Stress acc [I
iload_1
iaload
iadd
istore_0
iinc 1 1
goto adding
added:
frame int int /
iload_0
ireturn
end
method 9 main ([Ljava/lang/String;)V stack 6 locals 3
bipush";

/// The array of the workers.
pub const KEEPS: &str = "anewarray StressWorker
astore_1
";

/// A worker's place in the array, up to the place.
pub const PUTS: &str = "aload_1
bipush";

/// The worker, up to the number from which its numbers go on.
pub const MAKES: &str = "new StressWorker
dup
ldc int";

/// Its priority, up to that number.
pub const RANKS: &str = "bipush";

/// The worker is put in its place.
pub const MADE: &str = "invokespecial StressWorker <init> (II)V
aastore
";

/// The end of `Stress`: main starts all workers, joins all, and prints the sum of the elements and then the count.
pub const RUNS: &str = "iconst_0
istore_2
starting:
frame [Ljava/lang/String; [LStressWorker; int /
iload_2
aload_1
arraylength
if_icmpge started
aload_1
iload_2
aaload
invokevirtual java/lang/Thread start ()V
iinc 2 1
goto starting
started:
frame [Ljava/lang/String; [LStressWorker; int /
iconst_0
istore_2
joining:
frame [Ljava/lang/String; [LStressWorker; int /
iload_2
aload_1
arraylength
if_icmpge joined
aload_1
iload_2
aaload
invokevirtual java/lang/Thread join ()V
iinc 2 1
goto joining
joined:
frame [Ljava/lang/String; [LStressWorker; int /
getstatic java/lang/System out Ljava/io/PrintStream;
invokestatic Stress sum ()I
invokevirtual java/io/PrintStream println (I)V
getstatic java/lang/System out Ljava/io/PrintStream;
getstatic Stress count I
invokevirtual java/io/PrintStream println (I)V
return
end
";

/// `StressWorker`, a thread that makes 500 rounds. A round draws the next number, and under the lock it takes one from an
/// element, adds one to an element and raises the count.
pub const WORKER: &str = "class StressWorker
super java/lang/Thread
field 2 z I
method 1 <init> (II)V stack 2 locals 3
aload_0
invokespecial java/lang/Thread <init> ()V
aload_0
iload_1
putfield StressWorker z I
aload_0
iload_2
invokevirtual java/lang/Thread setPriority (I)V
return
end
method 1 run ()V stack 4 locals 4
aload_0
getfield StressWorker z I
istore_1
iconst_0
istore_2
round:
frame StressWorker int int /
iload_2
sipush 500
if_icmpge done
iload_1
ldc int 1103515245
imul
sipush 12345
iadd
istore_1
getstatic Stress lock Ljava/lang/Object;
dup
astore_3
monitorenter
held:
getstatic Stress acc [I
iload_1
bipush 8
iushr
bipush 7
iand
dup2
iaload
iconst_1
isub
iastore
getstatic Stress acc [I
iload_1
bipush 16
iushr
bipush 7
iand
dup2
iaload
iconst_1
iadd
iastore
getstatic Stress count I
iconst_1
iadd
putstatic Stress count I
aload_3
monitorexit
left:
iinc 2 1
goto round
thrown:
frame StressWorker int int java/lang/Object / java/lang/Throwable
aload_3
monitorexit
leaving:
athrow
done:
frame StressWorker int int /
return
handler held left thrown any
handler thrown leaving thrown any
end
";
